//! Pages of lists, and estimates of jobs, as parts of replies.
//!
//! [`page`] gives the part of a list that a query asks for, with a link to the part behind it; [`pages_join`] and
//! [`links_lead`] say that the pages along their links are the list, each item once. [`parts_of`], [`one_value`] and
//! [`number_or_zero`] read a query. [`estimate_body`] tells what the assets of a job need before it runs. Nothing here
//! knows who may see a list.
#![tactic(auto)]

mod estimate;
mod laws;
mod pages;
mod query;

pub use estimate::{EstimateRow, estimate_body};
pub use laws::{has_pages, links_lead, pages_have_parts, pages_join};
pub use pages::{page, path_behind};
pub use query::{PageAsked, QueryFail, number_or_zero, one_value, page_asked, parts_of};
