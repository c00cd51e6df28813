//! Replies of HTTP/1.1 (RFC 9110, RFC 9112), read from whatever pieces they come in, and requests.
#![tactic(auto)]

mod body_places;
mod body_states;
mod fields;
mod heads;
mod laws;
mod line_places;
mod replies;
mod reply_reader;
mod requests;

pub use laws::{
    content_grows, final_stays, one_outcome, read_is_outcome, shown_is_seen, within_limit,
};
pub use replies::{Fed, Head, ReplyErr};
pub use reply_reader::ReplyReader;
pub use requests::request_bytes;
