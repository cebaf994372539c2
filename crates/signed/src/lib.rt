// Signed numbers as their bits. Above this layer a signed number is held as the unsigned number of its bits in two's
// complement: sums and orders of unsigned numbers are what the checker proves by itself. The bits of a number and the number of
// bits are std's `cast_unsigned` and `cast_signed`.
#![tactic(auto)]

ghost use Rattle.std.specs.Prelude.{◌≡◌, pos};
ghost use Rattle.std.specs.Int.{w64};
ghost use Rattle.std.specs.Int.RustNames.{unsigned_abs};
ghost use Rattle.std.specs.Int.Signed.{lt_z};
ghost use Rattle.std.proofs.Common.{to_z};

// Of the number that bits hold, whether it is negative, and how far from 0 it lies.
pub fn sign_and_size(bits: u64) -> (bool, u64)
    ensures negative { result.0 ≡ lt_z (to_z w64 bits) (pos 0) }
    ensures size { result.1 ≡ unsigned_abs (to_z w64 bits) }
{
    let n = bits.cast_signed();
    (n < 0, n.unsigned_abs())
}
