//! What holds of every order in which ports are drawn. These functions do nothing: each contract is a theorem.

ghost use Rattle.std.specs.Prelude.{◌≡◌, ◌<◌, ◌+◌, ◌/◌, ℕ, List, length, slice_get, Some};
ghost use Rattle.archive_sockets.specs.Dealing.{AreDistinct, Deals};

/// Between two draws of one port lie at least half of all the ports.
pub fn dealt_ports()
    ensures { (ports cards : List ℕ) → AreDistinct cards → Deals ports cards → (i j port : ℕ) → i < j →
        slice_get ports i ≡ Some port → slice_get ports j ≡ Some port → i + length cards < j + length cards / 2 }
{}
