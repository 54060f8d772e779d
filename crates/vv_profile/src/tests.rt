//! Profiles against capabilities of the four kinds, and against one of the caller's own.
use crate::{Capabilities, Capability, Kind, Misfit, complies, is_one_of};
use std::alloc::Global;
use std::test::Fail;
use vv_units::{Name, Need, Offer, Why};

fn name(alloc: Global, text: &[u8]) -> Result<Name, Fail> {
    Ok(Name::read(alloc, text)?.ok_or("a name")?)
}

/// What is answered to a profile by a container with `min-iops` of 1000 and the feature 63.
fn answer(alloc: Global, asked: &[(&str, u64)]) -> Result<Result<(), Misfit>, Fail> {
    let mut capabilities = Vec::new(alloc);
    capabilities.push(Capability {
        name: name(alloc, b"min-iops")?,
        kind: Kind::AtLeast,
        test: Box::new(alloc, |offered: u64, asked: u64| offered >= asked)?,
    })?;
    capabilities.push(Capability {
        name: name(alloc, b"max-latency-us")?,
        kind: Kind::AtMost,
        test: Box::new(alloc, |offered: u64, asked: u64| offered <= asked)?,
    })?;
    capabilities.push(Capability {
        name: name(alloc, b"raid-level")?,
        kind: Kind::Equal,
        test: Box::new(alloc, |offered: u64, asked: u64| offered == asked)?,
    })?;
    capabilities.push(Capability {
        name: name(alloc, b"features")?,
        kind: Kind::OneOf,
        test: Box::new(alloc, |offered: u64, asked: u64| is_one_of(offered, asked))?,
    })?;
    let mut offered = Vec::new(alloc);
    offered.push(Offer {
        name: name(alloc, b"min-iops")?,
        value: 1000,
    })?;
    offered.push(Offer {
        name: name(alloc, b"features")?,
        value: 9223372036854775808,
    })?;
    let mut needs = Vec::new(alloc);
    for (text, value) in asked {
        needs.push(Need {
            name: name(alloc, text.as_bytes())?,
            value: *value,
        })?;
    }
    Ok(complies(&Capabilities::of(capabilities), &offered, &needs))
}

#[test]
fn no_capability_is_named_colour(rt: HostRuntime) -> Result<(), Fail> {
    let answer = answer(rt.alloc(), &[("min-iops", 500), ("colour", 1)])?;
    assert_eq!(rt;
        answer,
        Err(Misfit {
            at: 1,
            why: Why::Unknown
        })
    );
    Ok(())
}

#[test]
fn feature_63_is_offered(rt: HostRuntime) -> Result<(), Fail> {
    assert_eq!(rt; answer(rt.alloc(), &[("features", 63)])?, Ok(()));
    Ok(())
}

#[test]
fn feature_62_is_not(rt: HostRuntime) -> Result<(), Fail> {
    let answer = answer(rt.alloc(), &[("features", 62)])?;
    assert_eq!(rt;
        answer,
        Err(Misfit {
            at: 0,
            why: Why::TooLittle
        })
    );
    Ok(())
}

#[test]
fn no_latency_is_offered(rt: HostRuntime) -> Result<(), Fail> {
    let answer = answer(rt.alloc(), &[("max-latency-us", 5)])?;
    assert_eq!(rt;
        answer,
        Err(Misfit {
            at: 0,
            why: Why::NotOffered
        })
    );
    Ok(())
}

#[test]
fn capability_of_ones_own(rt: HostRuntime) -> Result<(), Fail> {
    let alloc = rt.alloc();
    let width = 64;
    let mut capabilities = Vec::new(alloc);
    capabilities.push(Capability {
        name: name(alloc, b"zones")?,
        kind: Kind::OneOf,
        test: Box::new(alloc, move |offered: u64, asked: u64| {
            asked < width && is_one_of(offered, asked)
        })?,
    })?;
    let offered = [Offer {
        name: name(alloc, b"zones")?,
        value: 5,
    }];
    let asked = [Need {
        name: name(alloc, b"zones")?,
        value: 2,
    }];
    assert_eq!(rt;
        complies(&Capabilities::of(capabilities), &offered, &asked),
        Ok(())
    );
    Ok(())
}
