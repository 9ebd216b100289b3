//! A caller of `archive_serving`.

ghost use Rattle.std.specs.Prelude.{◌≤◌, IfSome};

use archive_serving::Ports;

/// How many ports a server has for transfers that is given this range of them.
pub fn port_count(text: &str) -> Option<u32>
    ensures { IfSome result (λ count. 128 ≤ count) }
{
    let ports = Ports::read(text)?;
    Some(u32::from(ports.last) - u32::from(ports.first) + 1)
}
