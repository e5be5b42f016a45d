//! Numbers of 32 bits.

ghost use Rattle.std.specs.Prelude.{◌≡◌, IfOk, Some, slice_get};

use bal_base::Memory;

/// The number, where it fits.
pub fn narrow(n: u64) -> Result<u32, Memory>
    ensures { IfOk result (λ m. m ≡ n) }
{
    if n > u32::MAX as u64 {
        return Err(Memory);
    }
    Ok(n as u32)
}

/// The length, where it fits.
pub fn narrow_length(n: usize) -> Result<u32, Memory>
    ensures { IfOk result (λ m. m ≡ n) }
{
    if n > u32::MAX as usize {
        return Err(Memory);
    }
    Ok(n as u32)
}

/// The place of a label, where it has one.
pub fn place(labels: &[Option<usize>], label: usize) -> Result<u32, Memory>
    ensures { IfOk result (λ p. slice_get labels.now label ≡ Some (Some p)) }
{
    match labels.get(label) {
        Some(Some(p)) => narrow_length(*p),
        Some(None) | None => Err(Memory),
    }
}
