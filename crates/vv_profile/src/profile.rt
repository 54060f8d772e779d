//! Whether a profile complies with what a container offers.
ghost use Rattle.std.specs.Prelude.{◌≡◌, find};
ghost use Rattle.std.specs.Option.{option_copied};
ghost use Rattle.std.specs.Str.{bytes_eq};
ghost use Rattle.vv_flat.specs.Profiles.{unmet, first_misfit};
ghost use Rattle.vv_profile.specs.Kinds.{kind_of};
ghost use Rattle.vv_profile.specs.Known.{all_known, unmet_by, misfit_in};

use crate::{Capability, Misfit};
use vv_units::{ItemList, Name, Need, Offer, Why};

/// The capabilities that the array knows, in order.
pub type Capabilities = ItemList<Capability>;

/// Whether each need is met, or else the first that is not, and why. Of two capabilities or two offers of one name the
/// first counts.
pub fn complies(
    capabilities: &Capabilities,
    offered: &[Offer],
    asked: &[Need],
) -> Result<(), Misfit>
    ensures { misfit_in result ≡ first_misfit (all_known capabilities.now) offered.now asked.now }
{
    for (at, need) in asked.iter().enumerate() {
        if let Some(why) = unmet(capabilities.items(), offered, need) {
            return Err(Misfit { at, why });
        }
    }
    Ok(())
}

/// Why a need is not met, if it isn't.
fn unmet(capabilities: &[Capability], offered: &[Offer], need: &Need) -> Option<Why>
    ensures { result ≡ unmet (all_known capabilities.now) offered.now need.now }
{
    match capability_named(capabilities, &need.name) {
        Some(capability) => unmet_by(capability, offered, need),
        None => Some(Why::Unknown),
    }
}

/// Why a need is not met, if it isn't, by this capability.
fn unmet_by(capability: &Capability, offered: &[Offer], need: &Need) -> Option<Why>
    ensures { result ≡ unmet_by (kind_of capability.now.kind) offered.now need.now }
{
    match offer_named(offered, &need.name) {
        Some(offer) if capability.admits(offer.value, need.value) => None,
        Some(_) => Some(Why::TooLittle),
        None => Some(Why::NotOffered),
    }
}

/// The first capability of a name.
fn capability_named<'a>(capabilities: &'a [Capability], name: &Name) -> Option<&'a Capability>
    ensures { option_copied result ≡ find (λ c. bytes_eq c.name name.now) capabilities.now }
{
    for capability in capabilities {
        if has_name(&capability.name, name) {
            return Some(capability);
        }
    }
    None
}

/// The first offer of a name.
fn offer_named<'a>(offers: &'a [Offer], name: &Name) -> Option<&'a Offer>
    ensures { option_copied result ≡ find (λ o. bytes_eq o.name name.now) offers.now }
{
    offers.iter().find(|o| has_name(&o.name, name))
}

/// Whether a name is another one.
fn has_name(name: &Name, other: &Name) -> bool
    ensures { result ≡ bytes_eq name.now other.now }
{
    name.items() == other.items()
}
