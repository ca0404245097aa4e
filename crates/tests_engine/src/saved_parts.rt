//! The parts that an image is made of. What is shown of a refusal is tried on the built program:
//! dev/test_whole.py.

use explanations::image_parts;
use scenario_asm::assemble;
use scenario_image::{Scenario, ScenarioParts, load, save};
use std::process::Abort;

/// A text that is right: one flow over one router.
const TEXT: &str = "sim 1000000000
node s sender
node p router
node r receiver
link a s p 8000000 1000000 droptail 10
link b p r 8000000 1000000 droptail 10
link c r p 8000000 1000000 droptail 10
link d p s 8000000 1000000 droptail 10
flow f s r 1000 1 0 64000 0
route p r b
route p s d
";

/// The image of the text, in version 2.
fn image(rt: &(impl Abort + AllocGlobal)) -> Vec<u8> {
    let scenario = assemble(rt.alloc(), TEXT.as_bytes()).ok();
    let scenario = scenario.expect(rt, "a scenario");
    save(rt.alloc(), &scenario).expect(rt, "an image")
}

/// The same in version 1, which has no byte for the sender at the flow's end.
fn old_image(rt: &(impl Abort + AllocGlobal), image: &[u8]) -> Vec<u8> {
    let mut old = Vec::new(rt.alloc());
    for (at, byte) in image.iter().enumerate() {
        if at != 219 {
            let byte = if at == 3 { b'1' } else { *byte };
            old.push(byte).expect(rt, "room");
        }
    }
    old
}

/// Whether an image of so many bytes has parts.
fn parts(rt: &(impl Abort + AllocGlobal), image: &[u8]) -> Option<ScenarioParts> {
    image_parts(rt.alloc(), image).expect(rt, "memory")
}

/// An image of the first variant and of drop-tail queues is what its parts are saved as.
fn saved(rt: &(impl Abort + AllocGlobal), image: &[u8]) -> Vec<u8> {
    let parts = parts(rt, image).expect(rt, "parts");
    let scenario = Scenario::of_parts(parts).ok().expect(rt, "a scenario");
    save(rt.alloc(), &scenario).expect(rt, "an image")
}

#[test]
fn the_parts_of_an_image_are_those_that_it_is_loaded_with(rt: HostRuntime) {
    let second = image(&rt);
    let old = old_image(&rt, second.as_slice());
    assert!(rt; load(rt.alloc(), old.as_slice()).is_ok());
    for image in [&second, &old] {
        let again = saved(&rt, image.as_slice());
        assert!(rt; again.as_slice() == second.as_slice());
    }
}

/// A cut image has no parts.
#[test]
fn a_cut_image_has_no_parts(rt: HostRuntime) {
    let image = image(&rt);
    for count in 0..image.len() {
        let cut = image.as_slice().get(..count).expect(&rt, "so many");
        assert!(rt; parts(&rt, cut).is_none());
    }
}
