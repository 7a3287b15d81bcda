//! What a peer's commands mean, the histories that say so, and the laws that hold of them.
#![tactic(auto)]

mod laws;

pub use laws::{
    answered_by_the_closing_error, answered_by_the_first, answered_once,
    arrival_order_is_the_order_of_positions, asked_stream_gives_what_comes_behind_the_return,
    busy_changes_nothing, busy_where_a_stream_is_full, capacity_throws_nothing_away,
    clone_goes_on_where_its_original_is, done_where_nothing_refuses, dropped_for_good,
    first_cause_stays, ignored_fronts_change_nothing, main_capacity, messages_bear_the_name,
    name_stays, none_before_is_by_position, nothing_is_put_after_closing,
    object_server_begins_once, object_server_is_nobodys, put_is_what_was_sent,
    refused_changes_nothing, reply_changes_no_other, rule_capacity,
    rule_stream_gives_what_it_accepts, rules_are_one_where_equal, serve_takes_the_next_call,
    spent_changes_no_other, stream_after_closing_is_over, stream_changes_no_other,
    stream_closed_for_good, stream_denied_for_good, stream_ends_once, stream_gives_all,
    stream_gives_the_first_error, unstream_changes_no_other,
};
pub use peer_core::{
    Issued, MessageStream, Opened, Opening, Opens, PendingMethodCalls, Polled, Route, Spent,
};
pub use peer_words::{
    Answer, CallFlags, CallOp, Command, Entry, Live, ObjectOp, Outgoing, OutgoingKind, Posts,
    StreamOp, Words, body_words_are_read, hex_byte, read_body, read_hex,
};
