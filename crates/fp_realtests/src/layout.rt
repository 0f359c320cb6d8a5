//! The paths of the adapter's `LAYOUT` are those that dep_states defines.
use dep_states::{
    EXPORTS_NAME, NEW_FILE, OBJECTS_FOLDER, SIGN_FILES, TOP_NAMES, WAITING_FOLDER, WORK_FOLDER,
};
use fp_realroot::LAYOUT;

fn are_same(some: &[&str], others: &[&str]) -> bool {
    some.len() == others.len() && some.iter().zip(others).all(|(one, other)| *one == *other)
}

#[test]
fn paths_are_those_of_the_definitions(rt: HostRuntime) {
    assert!(rt;
        are_same(LAYOUT.names, &TOP_NAMES)
            && are_same(LAYOUT.signs, &SIGN_FILES)
            && LAYOUT.exports == EXPORTS_NAME
            && LAYOUT.work == WORK_FOLDER
            && LAYOUT.new_file == NEW_FILE
            && LAYOUT.objects == OBJECTS_FOLDER
            && LAYOUT.waiting == WAITING_FOLDER
    );
}
