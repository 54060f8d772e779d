//! The limits of the array, each met from both sides.
use crate::tests::{disk_for, play, words_of};
use std::alloc::Global;
use std::test::Fail;

/// What is written for a script on a new array of 16 chunks of 1 MB ends so.
fn is_ended(alloc: Global, script: Vec<u8>, end: &str) -> Result<bool, Fail> {
    let words = words_of(alloc, "new d.img 16 2048 256")?;
    let mut disk = disk_for(alloc, words.as_slice(), Vec::new(alloc))?;
    let (_, sink) = play(alloc, words.as_slice(), script, &mut disk)?;
    Ok(sink.bytes().ends_with(end.as_bytes()))
}

/// Puts a line behind a script so many times.
fn add(script: &mut Vec<u8>, line: &str, times: u32) -> Result<(), Fail> {
    for _ in 0..times {
        script.extend_from_slice(line.as_bytes())?;
    }
    Ok(())
}

const CONTAINER: &str = r#"{"call":"createStorageContainer","capabilities":[],"quota":1}
"#;

const VOLUME: &str = r#"{"call":"createVirtualVolume","sizeInMB":1,"vvolType":"Data"}
"#;

const CLONE: &str =
    r#"{"call":"cloneVirtualVolume","vvol":"rfc4122.00000000-0001-8000-8000-000000000001"}
"#;

const SNAPSHOT: &str =
    r#"{"call":"snapshotVirtualVolume","vvol":"rfc4122.00000000-0001-8000-8000-000000000001"}
"#;

#[test]
fn there_are_32_containers(rt: HostRuntime) -> Result<(), Fail> {
    let mut script = Vec::new(rt.alloc());
    add(&mut script, CONTAINER, 32)?;
    let end = r#"{"container":"rfc4122.00000000-0001-8000-8000-00000000001f","ok":true}
{"fault":"TooMany","limit":32,"name":"container","ok":false}
"#;
    assert!(rt; is_ended(rt.alloc(), script, end)?);
    Ok(())
}

#[test]
fn there_are_256_volumes(rt: HostRuntime) -> Result<(), Fail> {
    let mut script = Vec::new(rt.alloc());
    add(&mut script, VOLUME, 257)?;
    let end = r#"{"ok":true,"vvol":"rfc4122.00000000-0001-8000-8000-000000000100"}
{"fault":"TooMany","limit":256,"name":"vvol","ok":false}
"#;
    assert!(rt; is_ended(rt.alloc(), script, end)?);
    Ok(())
}

#[test]
fn sixteen_tasks_run(rt: HostRuntime) -> Result<(), Fail> {
    let mut script = Vec::new(rt.alloc());
    add(&mut script, VOLUME, 1)?;
    add(&mut script, CLONE, 17)?;
    let end =
        r#"{"ok":true,"target":"rfc4122.00000000-0001-8000-8000-000000000011","task":17,"total":0}
{"fault":"TooMany","limit":16,"name":"task","ok":false}
"#;
    assert!(rt; is_ended(rt.alloc(), script, end)?);
    Ok(())
}

/// Binds the first volumes, so many of them, to each host.
fn add_bindings(alloc: Global, script: &mut Vec<u8>, volumes: u32) -> Result<(), Fail> {
    for host in 1..=64u32 {
        for volume in 1..=volumes {
            let line = format!(in alloc;
                "{{\"call\":\"bindVirtualVolume\",\"host\":{host},\"vvol\":\"rfc4122.00000000-0001-8000-8000-{volume:012x}\"}}\n"
            )?;
            script.extend_from_slice(line.as_bytes())?;
        }
    }
    Ok(())
}

#[test]
fn there_are_1024_bindings(rt: HostRuntime) -> Result<(), Fail> {
    let mut script = Vec::new(rt.alloc());
    add(&mut script, VOLUME, 17)?;
    add_bindings(rt.alloc(), &mut script, 16)?;
    add(
        &mut script,
        r#"{"call":"bindVirtualVolume","host":1,"vvol":"rfc4122.00000000-0001-8000-8000-000000000011"}
"#,
        1,
    )?;
    let end = r#"{"endpoint":1,"ok":true,"secondary":16}
{"fault":"TooMany","limit":1024,"name":"binding","ok":false}
"#;
    assert!(rt; is_ended(rt.alloc(), script, end)?);
    Ok(())
}

/// Sets so many pairs of the first volume.
fn add_pairs(alloc: Global, script: &mut Vec<u8>, pairs: u32) -> Result<(), Fail> {
    for pair in 0..pairs {
        let line = format!(in alloc;
            "{{\"call\":\"setMetadata\",\"key\":\"key-{pair}\",\"value\":\"v\",\"vvol\":\"rfc4122.00000000-0001-8000-8000-000000000001\"}}\n"
        )?;
        script.extend_from_slice(line.as_bytes())?;
    }
    Ok(())
}

#[test]
fn a_volume_has_64_pairs(rt: HostRuntime) -> Result<(), Fail> {
    let mut script = Vec::new(rt.alloc());
    add(&mut script, VOLUME, 1)?;
    add_pairs(rt.alloc(), &mut script, 65)?;
    add_pairs(rt.alloc(), &mut script, 1)?;
    let end = r#"{"ok":true}
{"fault":"TooMany","limit":64,"name":"key","ok":false}
{"ok":true}
"#;
    assert!(rt; is_ended(rt.alloc(), script, end)?);
    Ok(())
}

#[test]
fn all_volumes_have_4352_pairs(rt: HostRuntime) -> Result<(), Fail> {
    let mut script = Vec::new(rt.alloc());
    add(&mut script, VOLUME, 1)?;
    add_pairs(rt.alloc(), &mut script, 64)?;
    add(&mut script, SNAPSHOT, 68)?;
    let end = r#"{"ok":true,"vvol":"rfc4122.00000000-0001-8000-8000-000000000084"}
{"fault":"TooMany","limit":4352,"name":"pairs","ok":false}
"#;
    assert!(rt; is_ended(rt.alloc(), script, end)?);
    Ok(())
}
