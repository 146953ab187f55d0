//! The dice by which a check goes on.

/// The dice once they are rolled again. Their upper digits are the best.
pub(crate) fn rolled(dice: u64) -> u64 {
    dice.wrapping_mul(6_364_136_223_846_793_005)
        .wrapping_add(1_442_695_040_888_963_407)
}
