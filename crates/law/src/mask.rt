// Masks: bit i stands for fluent i, or for entry i.
ghost use Rattle.std.specs.Prelude.{◌≡◌};
ghost use Rattle.bmap.specs.Domain.{has};

// What is past the mask's bits is not in it.
pub(crate) fn has_bit(mask: u64, i: u8) -> bool
    ensures { result ≡ has mask i }
{
    if i < 64 { (mask >> i) % 2 == 1 } else { false }
}
