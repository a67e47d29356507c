//! A script that a seed gives. What all its commands say is tried by the program `script_cases`.
use script_maker::generate;
use script_reader::Script;
use std::process::Abort;
use std::test::Fail;

fn has_25_phases(rt: &impl Abort, script: &Script) {
    assert!(rt;
        [
            script.nodes().len(),
            script.objects().len(),
            script.opening().objects().len(),
            script.plan().rows().len(),
            script.commands().len(),
        ] == [8, 32, 32, 0, 4000]
    );
    assert!(rt; script.phases() == 25);
}

#[test]
fn a_seed_gives_25_phases(rt: HostRuntime) -> Result<(), Fail> {
    let script = generate(rt.alloc(), 1)?;
    has_25_phases(&rt, &script);
    Ok(())
}
