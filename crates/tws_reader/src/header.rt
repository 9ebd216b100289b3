//! The header of a solution file.

ghost use Rattle.std.specs.Prelude.{IfOk, IfErr, IfSome, IfNone};
ghost use Rattle.tws_file.specs.Fault.{HasFileFault, IsLasting};
ghost use Rattle.tws_reader.specs.Steps.{BeginsWithHeader, IsShort};

use tws_file::{FileFault, Ruleset, SIGNATURE};

/// A header, and the bytes of the records after it.
#[derive(Clone, Copy)]
pub(crate) struct Header<'a> {
    pub(crate) ruleset: Ruleset,
    pub(crate) word: [u8; 2],
    pub(crate) extra: &'a [u8],
    pub(crate) records: &'a [u8],
}

// The header that the bytes begin with; `None` if it is cut.
pub(crate) fn read_header(bytes: &[u8]) -> Result<Option<Header<'_>>, FileFault>
    ensures header { IfOk result (λ r. IfSome r (λ h. BeginsWithHeader bytes.now h.ruleset h.word h.extra.now h.records.now)) }
    ensures short { IfOk result (λ r. IfNone r (IsShort bytes.now)) }
    // Never `Memory`: it does not allocate.
    ensures fault { IfErr result (λ e. IsLasting e × HasFileFault bytes.now e) }
{
    let [a, b, c, d, code, low, high, count, rest @ ..] = bytes else {
        return Ok(None);
    };
    if [*a, *b, *c, *d] != SIGNATURE {
        return Err(FileFault::BadSignature);
    }
    let Some(ruleset) = Ruleset::from_code(*code) else {
        return Err(FileFault::BadRuleset(*code));
    };
    let count = usize::from(*count);
    if rest.len() < count {
        return Ok(None);
    }
    let (extra, records) = rest.split_at(count);
    Ok(Some(Header {
        ruleset,
        word: [*low, *high],
        extra,
        records,
    }))
}
