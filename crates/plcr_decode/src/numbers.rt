//! Numbers and bytes as a report has them.
ghost use Rattle.std.specs.Prelude.{◌≡◌, ◌%◌, ◌^◌, IfOk};
ghost use Rattle.plcr_decode.specs.inner.Views.{told};

use plcr_report::Bytes;
use std::alloc::{AllocError, Global};

/// The low 32 bits of a number.
pub(crate) fn low(number: u64) -> u32
    ensures { result ≡ number % 2 ^ 32 }
{
    (number % 0x1_0000_0000) as u32
}

/// A copy of these bytes.
pub(crate) fn owned(alloc: Global, bytes: &[u8]) -> Result<Bytes, AllocError>
    ensures { IfOk result (λ x. x ≡ bytes.now) }
{
    Ok(Bytes::new(bytes.to_vec(alloc)?))
}

/// A copy of these bytes, where there are any.
pub(crate) fn owned_where(alloc: Global, bytes: Option<&[u8]>) -> Result<Option<Bytes>, AllocError>
    ensures { IfOk result (λ x. x ≡ told bytes.entry) }
{
    match bytes {
        None => Ok(None),
        Some(bytes) => Ok(Some(owned(alloc, bytes)?)),
    }
}
