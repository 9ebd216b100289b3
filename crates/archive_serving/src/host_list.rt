//! A list of hosts, as it is written.

ghost use Rattle.std.specs.Prelude.{◌≡◌, ◌∷◌, [], IfSome, IfNone};
ghost use Rattle.std.specs.Option.{option_map_or};
ghost use Rattle.archive_serving.specs.Hosts.{IsNoList, ListsHosts, parts_of};

use archive_arguments::Address;
use archive_server::PUTTERS;

// What stands before the first comma, and what stands after it if there is one.
fn cut(text: &str) -> (&str, Option<&str>)
    ensures { parts_of text.now ≡ result.0.now ∷ option_map_or (λ rest. parts_of rest.now) result.1 [] }
{
    match text.split_once(',') {
        Some((first, rest)) => (first, Some(rest)),
        None => (text, None),
    }
}

/// The hosts of a list of addresses, and 0 in the places that are left. `None` if a part is not an address, or there are more
/// than `PUTTERS`.
pub(crate) fn read_hosts(text: &str) -> Option<[u32; PUTTERS]>
    ensures some { IfSome result (ListsHosts text.now) }
    ensures none { IfNone result (IsNoList text.now) }
{
    let mut hosts = [0; PUTTERS];
    let mut rest = text;
    for place in 0..PUTTERS {
        let (first, others) = cut(rest);
        let Some(address) = Address::read(first) else {
            return None;
        };
        hosts[place] = address.host;
        let Some(others) = others else {
            return Some(hosts);
        };
        rest = others;
    }
    None
}
