//! The dice by which plans are drawn.

ghost use Rattle.std.specs.Prelude.{◌≤◌};

/// The dice once they are rolled again. Their upper digits are the best.
pub(crate) fn rolled(dice: u64) -> u64 {
    dice.wrapping_mul(6_364_136_223_846_793_005)
        .wrapping_add(1_442_695_040_888_963_407)
}

/// A number from 1 to that one, by the lower digits of the dice.
pub(crate) fn drawn(dice: u64, most: u32) -> u32
    requires { 1 ≤ most }
    ensures least { 1 ≤ result }
    ensures greatest { result ≤ most }
{
    (dice % u64::from(most)) as u32 + 1
}
