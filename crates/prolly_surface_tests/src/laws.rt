//! `prolly_laws`, and the laws of `prolly_tool`.
use prolly_laws::{applying, differences, entries, examples, merging, passing, stages, trees};

fn laws_of_entries() {
    entries::keys_are_ordered_bytewise();
    entries::no_spelling_begins_another();
    entries::reference_texts_differ();
    entries::bytes_have_one_reading();
    entries::first_records_are_good();
    entries::record_files_are_read();
}

fn laws_of_splits() {
    entries::lists_have_one_split::<u8>();
    entries::groups_are_few::<u8>();
    entries::splits_go_on::<u8>();
    entries::splits_go_on_behind::<u8>();
}

fn laws_of_trees() {
    trees::trees_grow();
    trees::trees_keep_pairs();
    trees::trees_keep_leaves();
    trees::trees_are_small();
    trees::chunks_differ();
    trees::begun_files_are_prefixes();
    trees::files_decide_their_map();
    trees::roots_tell_maps();
}

fn laws_of_stages() {
    stages::stages_make_the_tree();
    stages::enough_stages_send_the_file();
    stages::faults_send_a_prefix();
    stages::stages_go_on();
    stages::writers_take_a_prefix();
}

fn laws_of_overlays() {
    merging::lists_have_one_overlay();
    merging::overlays_are_maps();
    merging::divisions_keep_the_overlay();
    merging::neighbours_are_overlaid_first();
    merging::overlays_go_on();
    merging::overlays_are_small();
}

fn laws_of_merging() {
    merging::neighbours_merge_first::<u8>();
    merging::merges_go_on::<u8>();
    merging::cut_inputs_keep_their_stop::<u8>();
    merging::fronts_merge_to_a_front::<u8>();
    merging::merged_parts_rise::<u8>();
}

fn laws_of_differences() {
    differences::differences_say_no_equal();
    differences::maps_have_a_difference();
    differences::maps_have_one_difference();
    differences::differences_turn_maps();
    differences::equal_maps_differ_nowhere();
    differences::differences_compose();
}

fn laws_of_changes() {
    applying::changes_apply_together();
    applying::no_changes_leave_the_map();
    applying::files_apply_changes();
}

fn laws_of_leaves_that_stay() {
    passing::overlays_are_cut_at_keys();
    passing::fronts_stay();
    passing::leaves_stay();
    passing::leaf_events_go_on();
    passing::leaf_events_stay();
    passing::merged_fronts_stay::<u8>();
    passing::merged_leaf_events_stay::<u8>();
}

fn laws_of_examples() {
    examples::files_are_these_bytes();
    examples::chunks_have_these_levels();
    examples::lists_merge_so();
}

fn laws_of_answers() {
    prolly_tool::laws::record_files_are_dumped();
    prolly_tool::laws::dumps_by_root_are_right();
    prolly_tool::laws::keys_by_root_are_right();
    prolly_tool::laws::ranges_are_right();
    prolly_tool::laws::shown_keys_are_right();
}

#[test]
fn laws_are_named_as_ever() {
    laws_of_entries();
    laws_of_splits();
    laws_of_trees();
    laws_of_stages();
    laws_of_overlays();
    laws_of_merging();
    laws_of_differences();
    laws_of_changes();
    laws_of_leaves_that_stay();
    laws_of_examples();
    laws_of_answers();
}
