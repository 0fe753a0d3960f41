//! Domain names (RFC 1035, RFC 4343): what they are, as octets and as text, when two are equal, and in
//! which order they stand.
#![tactic(auto)]

pub use circle::{
    Circle, a_value_has_one_successor, all_else_lies_in_a_gap, all_else_lies_in_one_gap, covers,
    each_value_has_a_successor, the_next_is_behind, the_next_is_below_what_has_a_member_below,
    the_owner_is_before, the_owner_is_below_each_member_above,
};
pub use count::{Count, counts_add_up};
pub use error::NameError;
pub use hash20::Hash20;
pub use lines::base64_field::{base64_octets, is_base64};
pub use lines::decimal::{decimal_u8, decimal_u16};
pub use lines::{Line, Lines, a_line_has_one_list_of_fields, a_text_has_one_list_of_lines};
pub use name::{LABEL_LIMIT, Name, WIRE_LIMIT};
pub use number::{RecordType, Ttl, record_types_have_their_numbers};
pub use octets::compare::compare_octets;
pub use octets::{u16_at, u32_at, u48_at};
pub use order::by_wire::ByWire;
pub use order::{
    canonical_order_is_total, names_at_or_below_are_an_interval, names_at_or_below_begin_alike,
    names_come_before_those_below,
};
pub use stored_name::StoredName;
pub use text::parse::{a_text_has_one_reading, names_are_spelled_by_their_text};
pub use text::{TEXT_LIMIT, push_label};
pub use tree::ASTERISK_LABEL;
pub use tree::tree_laws::{
    a_wire_form_is_one_name, ancestors_stand_in_one_line, at_or_below_is_tested,
    equal_names_have_equal_sizes, names_above_are_the_rightmost_labels,
    names_at_or_below_come_together, names_below_have_more_labels, names_form_a_tree,
    rightmost_labels_are_ancestors, the_next_closer_name_is_below_the_closest_encloser,
    wildcards_stand_right_below,
};
pub use wire::lower::lower_order;
pub use wire_name::WireName;

mod circle;
mod count;
mod error;
mod hash20;
mod lines;
mod name;
mod number;
mod octets;
mod order;
mod stored_name;
mod text;
mod tree;
mod wire;
mod wire_name;
