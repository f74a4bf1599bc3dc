//! Each law, called once: what it says is then at hand where its caller is proved.

use hardieflax::{
    a_statement_is_accepted, accepted_are_read, accepted_are_reported, accepted_have_text,
    accepted_statements_have_answers, accepted_values_fit, answered_pairs_come_first,
    boxing_takes_the_id_alone, built_statements_know_their_names, calls_are_answered_alone,
    compared_keys_are_equal_keys, counting_beside_is_no_promise, counts_add_up,
    different_expressions_have_different_lists, different_statements_have_different_lists,
    distinct_on_keeps_the_first, equal_ids, equal_keys_are_equal_shapes, equal_keys_hash_alike,
    equal_shapes_have_ids_alike, equality_is_equality, fields_of_the_table_alone,
    fields_twice_as_once, filled_by_values, filter_and_then_order_by_append,
    first_by_the_order_is_left, first_is_any, guard_is_exact, guard_keeps_the_rules,
    guarded_statements_have_answers, inner_joins_pad_nothing, joined_texts,
    last_writer_is_an_answer, leaves_no_trace, left_join_has_two_answers,
    list_lengths_can_be_exchanged, lists_are_flat, names_one_leaf, needs_nullable_is_needed,
    no_reading, numbered_trees_are_filled, on_is_needed, one_answer, one_audit_answer, one_reading,
    only_reading, only_seen_rows_matter, operators_work, or_filter_is_filter_with_or,
    other_rows_do_not_matter, posts_are_counted, premises_are_needed, quoted_name,
    quoted_names_differ, related_tables_have_a_condition, restriction_is_exact,
    restriction_keeps_the_rules, safe_without_value_lists, same_origins_are_equal,
    the_example_is_accepted, the_later_call_stands, token_rules, types_are_sound,
    ungrouped_answers_are_the_same, values_can_be_exchanged,
    without_subselects_restricting_is_enough, worked_readings, worked_statements, worked_tokens,
    written,
};

/// The laws of schemas, quoted names, sources and calls.
pub fn laws_of_parts() {
    equality_is_equality();
    quoted_names_differ();
    counts_add_up();
    fields_of_the_table_alone();
    fields_twice_as_once();
    inner_joins_pad_nothing();
    related_tables_have_a_condition();
    same_origins_are_equal();
    filter_and_then_order_by_append();
    or_filter_is_filter_with_or();
    the_later_call_stands();
}

/// The laws of the grammar and readings.
pub fn laws_of_texts() {
    joined_texts();
    no_reading();
    one_reading();
    quoted_name();
    token_rules();
    worked_readings();
    worked_tokens();
    written();
    numbered_trees_are_filled::<u8>();
    filled_by_values();
    leaves_no_trace();
    only_reading();
    worked_statements();
}

/// The laws of flat lists, keys, caches and answers.
pub fn laws_of_keys() {
    different_expressions_have_different_lists();
    different_statements_have_different_lists();
    compared_keys_are_equal_keys();
    equal_keys_are_equal_shapes();
    equal_keys_hash_alike();
    equal_shapes_have_ids_alike();
    answered_pairs_come_first();
    calls_are_answered_alone();
    accepted_statements_have_answers();
    first_by_the_order_is_left();
    distinct_on_keeps_the_first();
    first_is_any();
    last_writer_is_an_answer();
    left_join_has_two_answers();
    needs_nullable_is_needed();
    one_answer();
    operators_work();
    posts_are_counted();
    counting_beside_is_no_promise();
    the_example_is_accepted();
    types_are_sound();
    ungrouped_answers_are_the_same();
}

/// The laws of statements that break no rule.
pub fn laws_of_statements() {
    a_statement_is_accepted();
    accepted_are_read();
    accepted_have_text();
    accepted_values_fit();
    equal_ids();
    list_lengths_can_be_exchanged();
    lists_are_flat();
    names_one_leaf();
    premises_are_needed();
    safe_without_value_lists();
    values_can_be_exchanged();
    boxing_takes_the_id_alone();
    guard_is_exact();
    guard_keeps_the_rules();
    guarded_statements_have_answers();
    on_is_needed();
    only_seen_rows_matter();
    other_rows_do_not_matter();
    restriction_is_exact();
    restriction_keeps_the_rules();
    without_subselects_restricting_is_enough();
    built_statements_know_their_names();
    accepted_are_reported();
    one_audit_answer();
}
