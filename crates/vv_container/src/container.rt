//! A container as its maker gives it, and the refusal of a charge.
ghost use Rattle.std.specs.Prelude.{IsTrue};
ghost use Rattle.vv_container.specs.Forms.{have_forms};

use vv_units::OfferList;

/// How many chunks a container's volumes may be charged for in all, and what it offers: a quota below 2^32, and at most
/// 16 offers of different names.
#[derive(Debug, Drop)]
pub struct Container {
    pub quota: u64,
    pub offered: OfferList,
    pub ghost forms: { IsTrue (have_forms quota offered) },
}

/// A container is charged for so many chunks, and its quota is too small for as many more as were asked for.
#[derive(Clone, Copy, Debug, PartialEq, Eq)]
pub struct OverQuota {
    pub charged: u64,
    pub asked: u64,
    pub quota: u64,
}
