//! The journal of a coordinator on a disk: which bytes stand for which inputs, whatever a crash left of
//! them.
#![tactic(auto)]

mod law;

pub use law::{
    closed_gates_end_an_image, damage_has_one_place, gates_add_one_input, images_have_one_list,
    inputs_step_the_coordinator, journals_grow_by_records,
};
