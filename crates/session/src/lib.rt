// Serving one link: lines in, their replies out, by whatever answers requests.
//
// The layers above give it a `Service`, and may rely on what `serve_link` says of each end. Nothing here may wait but what a
// service or a link does, so it is proved to return where their calls return.
#![tactic(auto)]

pub mod end;
mod line;
mod serve;
pub mod service;

pub use end::End;
pub use serve::serve_link;
pub use service::Service;
