//! Calls that are numbered from 1, some of which are to fail.
ghost use Rattle.std.specs.Prelude.{◌≡◌, ◌↔◌, ◌<◌, length, IsTrue, IsNone, IfSome, Contains};
ghost use Rattle.plcr_io.specs.declared.limits.TheConstants.{FILE_NAME_BYTES};
ghost use Rattle.plcr_io.specs.Counting.{next};
ghost use Rattle.plcr_io.specs.Calls.{CallFails};

use crate::FILE_NAME_BYTES;
use crate::counting::one_more;
use arrayvec::ArrayString;
use std::marker::Model;

/// A name within its limit.
#[derive(Drop)]
pub(crate) struct Name {
    text: ArrayString<FILE_NAME_BYTES>,
}

impl Model for Name {
    ghost use Rattle.std.specs.Prelude.{ℕ, List};

    ghost Value = { List ℕ };

    ghost view = { λ name. name.text.bytes };
}

impl Name {
    fn new(name: &str) -> Option<Name>
        ensures same { IfSome result (λ own. own ≡ name.now) }
        ensures long { IsNone result ↔ (FILE_NAME_BYTES < length name.now) }
    {
        match ArrayString::from(name) {
            Ok(text) => Some(Name { text }),
            Err(_) => None,
        }
    }

    pub(crate) fn as_str(&self) -> &str
        ensures { result.now ≡ self.now }
    {
        self.text.as_str()
    }
}

/// Whether the call with this number is one of those that fail.
pub(crate) fn is_listed(failing: &[u32], number: u64) -> bool
    ensures { IsTrue result ↔ Contains failing.now number }
{
    failing.iter().any(|n| u64::from(*n) == number)
}

/// Counts a call under this name. `None` where it fails.
pub(crate) fn admit(calls: &mut u64, failing: &[u32], name: &str) -> Option<Name>
    ensures calls { calls.new ≡ next calls.old }
    ensures same { IfSome result (λ own. own ≡ name.now) }
    ensures fails { IsNone result ↔ CallFails failing.now calls.old name.now }
{
    *calls = one_more(*calls);
    if is_listed(failing, *calls) {
        None
    } else {
        Name::new(name)
    }
}
