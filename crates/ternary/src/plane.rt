// 256 bits, in four limbs: bit i is bit i mod 64 of limb i / 64.
//
// Each operation below says what every bit is afterwards.
ghost use Rattle.std.specs.Prelude.{◌≡◌, ℕ, ◌<◌, ◌==◌, if◌then◌else◌, length};
ghost use Rattle.ternary.specs.Bit.{bit, Fitting};

use std::array;
use std::ops::{BitAnd, BitOr, BitXor, Not};

#[derive(Clone, Copy, PartialEq, Eq, Debug)]
pub(crate) struct Plane {
    limbs: [u64; 4],
    ghost long: { length limbs ≡ 4 },
    ghost fitting: { Fitting limbs },
}

impl Plane {
    ghost use Rattle.std.specs.Prelude.{false, slice_index, IsTrue, ◌↔◌};
    ghost use Rattle.ternary.specs.Planes.{plane_bit, HasBits};

    #[tactic(auto, using(crate::proofs::Limbs::plane_none))]
    pub(crate) fn empty() -> Plane
        ensures { HasBits result (λ p. false) }
    {
        Plane { limbs: [0; 4] }
    }

    #[tactic(auto, using(crate::proofs::Limbs::planes_decide))]
    pub(crate) fn is_empty(&self) -> bool
        ensures { IsTrue result ↔ HasBits self.now (λ p. false) }
    {
        *self == Plane::empty()
    }

    #[tactic(auto, using(crate::proofs::Bits::bit_test), unfolding(crate::specs::Planes::plane_bit))]
    pub(crate) fn get(&self, i: u8) -> bool
        ensures { result ≡ plane_bit self.now i }
    {
        (self.limbs[usize::from(i / 64)] >> (i % 64)) & 1 == 1
    }

    #[tactic(auto, using(crate::proofs::Limbs::plane_set))]
    pub(crate) fn set(&mut self, i: u8, value: bool)
        ensures { HasBits self.new (λ p. if p == i then value else plane_bit self.old p) }
    {
        let k = usize::from(i / 64);
        self.limbs[k] = with_bit(self.limbs[k], i % 64, value);
    }

    // Each limb of the result is what f gives of the two limbs in its place.
    fn combine<F: Fn(u64, u64) -> u64>(self, other: Plane, f: F) -> Plane
        requires { F.IsAlwaysCallable f }
        ensures { (k : ℕ) → k < 4 → F.post f (slice_index self.limbs k) (slice_index other.limbs k) (slice_index result.limbs k) }
    {
        Plane {
            limbs: array::from_fn(|k| f(self.limbs[k], other.limbs[k])),
        }
    }
}

// The limb with bit j made what is given.
#[tactic(auto, using(crate::proofs::Bits::bit_set, crate::proofs::Bits::bit_clear))]
fn with_bit(limb: u64, j: u8, value: bool) -> u64
    requires { j < 64 }
    ensures { (k : ℕ) → k < 64 → bit result k ≡ (if k == j then value else bit limb k) }
{
    let mask = 1 << j;
    if value { limb | mask } else { limb & !mask }
}

impl BitAnd for Plane {
    ghost use Rattle.std.specs.Prelude.{◌&&◌};
    ghost use Rattle.ternary.specs.Planes.{plane_bit, HasBits};

    type Output = Plane;

    ghost bitand_gives = { λ a b r. HasBits r (λ p. plane_bit a p && plane_bit b p) };

    fn bitand(self, other: Plane) -> Plane {
        self.combine(other, |a, b| a & b)
    }
}

impl BitOr for Plane {
    ghost use Rattle.std.specs.Prelude.{◌||◌};
    ghost use Rattle.ternary.specs.Planes.{plane_bit, HasBits};

    type Output = Plane;

    ghost bitor_gives = { λ a b r. HasBits r (λ p. plane_bit a p || plane_bit b p) };

    fn bitor(self, other: Plane) -> Plane {
        self.combine(other, |a, b| a | b)
    }
}

impl BitXor for Plane {
    ghost use Rattle.ternary.specs.Bit.{differs};
    ghost use Rattle.ternary.specs.Planes.{plane_bit, HasBits};

    type Output = Plane;

    ghost bitxor_gives = { λ a b r. HasBits r (λ p. differs (plane_bit a p) (plane_bit b p)) };

    fn bitxor(self, other: Plane) -> Plane {
        self.combine(other, |a, b| a ^ b)
    }
}

impl Not for Plane {
    ghost use Rattle.std.specs.Prelude.{not};
    ghost use Rattle.ternary.specs.Planes.{plane_bit, HasBits};

    type Output = Plane;

    ghost not_gives = { λ a r. HasBits r (λ p. not (plane_bit a p)) };

    #[tactic(auto, using(crate::proofs::Limbs::plane_not))]
    fn not(self) -> Plane {
        Plane {
            limbs: array::from_fn(|k| !self.limbs[k]),
        }
    }
}
