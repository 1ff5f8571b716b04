//! Statements whose results were worked by hand: each is the contract of a function that does nothing.

ghost use Rattle.n1ql_meaning.specs.WorkedForms.{IsRight};
ghost use Rattle.n1ql_meaning.specs.WorkedGroups as grouped;
ghost use Rattle.n1ql_meaning.specs.WorkedResults as worked;

/// WHERE drops a row on which it isn't TRUE.
pub fn only_what_is_on_sale()
    ensures { IsRight worked.only_what_is_on_sale }
{}

/// Past the range of numbers, and where a number is divided by 0, there is NULL.
pub fn numbers_past_their_range()
    ensures { IsRight worked.numbers_past_their_range }
{}

/// In an object MISSING adds nothing, NULL does.
pub fn missing_adds_nothing()
    ensures { IsRight worked.missing_adds_nothing }
{}

/// A later name takes the place of an earlier one, but not by MISSING; a term without a name is called by its place.
pub fn a_later_name_replaces()
    ensures { IsRight worked.a_later_name_replaces }
{}

/// `*` adds the document under its name.
pub fn the_whole_document()
    ensures { IsRight worked.the_whole_document }
{}

/// UNNEST gives a row for each element; results are in the order of a field of it, the greatest first.
pub fn a_row_for_each_element()
    ensures { IsRight worked.a_row_for_each_element }
{}

/// With LEFT a row without elements stays, with MISSING; without it the row goes.
pub fn left_keeps_a_row()
    ensures { IsRight worked.left_keeps_a_row }
{}

/// Without LEFT a row without elements goes.
pub fn a_row_without_elements_goes()
    ensures { IsRight worked.a_row_without_elements_goes }
{}

/// `*` adds what UNNEST binds, and `v.*` its pairs.
pub fn the_names_of_unnests_are_spread()
    ensures { IsRight worked.the_names_of_unnests_are_spread }
{}

/// A result for each group, in the order of a term's value, the greatest first.
pub fn counts_and_sums()
    ensures { IsRight grouped.counts_and_sums }
{}

/// Without ORDER BY groups are in the order of their keys.
pub fn groups_by_their_keys()
    ensures { IsRight grouped.groups_by_their_keys }
{}

/// A sum past the range of numbers is NULL.
pub fn a_sum_past_the_range()
    ensures { IsRight grouped.a_sum_past_the_range }
{}

/// COUNT, MIN and ARRAY_AGG pass over MISSING, all but ARRAY_AGG over NULL, and SUM over what is no number.
pub fn what_aggregates_pass_over()
    ensures { IsRight grouped.what_aggregates_pass_over }
{}

/// Without GROUP BY all rows are one group, also none; then each name is MISSING.
pub fn a_group_without_rows()
    ensures { IsRight grouped.a_group_without_rows }
{}

/// HAVING drops a group on which it isn't TRUE.
pub fn having_drops_groups()
    ensures { IsRight grouped.having_drops_groups }
{}

/// An aggregate sees the variable that is bound around it, and each row's own fields.
pub fn an_aggregate_inside_a_frame()
    ensures { IsRight grouped.an_aggregate_inside_a_frame }
{}

/// Of equal results the first is kept, with its place in the order.
pub fn distinct_keeps_the_first()
    ensures { IsRight worked.distinct_keeps_the_first }
{}

/// A name in ORDER BY that a term was given means the term, and not the field.
pub fn order_by_a_given_name()
    ensures { IsRight worked.order_by_a_given_name }
{}

/// A name that a term has of itself means the field.
pub fn a_term_s_own_name_is_no_given_one()
    ensures { IsRight worked.a_term_s_own_name_is_no_given_one }
{}

/// LIMIT keeps the first by id.
pub fn the_first_by_id()
    ensures { IsRight worked.the_first_by_id }
{}

/// OFFSET drops from the front, and then LIMIT keeps.
pub fn the_second_of_three()
    ensures { IsRight worked.the_second_of_three }
{}
