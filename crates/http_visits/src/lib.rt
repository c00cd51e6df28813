//! What stands at a URL, by the pages that are replied: the place that is asked, what the page there
//! says, and where its redirects lead.
#![tactic(auto)]

mod addresses;
mod pages;
mod places;
mod statuses;

pub use addresses::{is_file_path, place_of};
pub use pages::{Page, reply_of};
pub use places::{Place, next_place};
pub use statuses::{Kind, kind_of_head, location_of};
