//! The mode of a request.

ghost use Rattle.std.specs.Prelude.{◌≡◌, IsTrue, ◌↔◌};
ghost use Rattle.tftp_packet.specs.Packet.{IsOctet, is_octet as octet_mode};

/// Whether a request's mode is octet, in which a file's bytes are transferred unchanged: these five letters, each in
/// lower case or upper case (RFC 1350 section 5).
pub fn is_octet(mode: &[u8]) -> bool
    ensures octet { IsTrue result ↔ IsOctet mode.now }
    ensures test { result ≡ octet_mode mode.now }
{
    mode.eq_ignore_ascii_case(b"octet")
}
