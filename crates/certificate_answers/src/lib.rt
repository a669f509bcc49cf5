//! What is answered to the bytes of files, by what is asked of a certificate: the files, the case that they give, and the answer.
#![tactic(auto)]

mod answer;
mod asked;
mod files;
mod hearing;
mod inquiry;
mod judging;
mod laws;
mod rolling;
mod savings;
mod status;
mod stop;

pub use answer::{Answer, refused, too_long};
pub use asked::check;
pub use files::{FileNames, InputFiles, Inputs, read_inputs};
pub use inquiry::{Asking, Inquiry};
pub use judging::{given_case, judged_case};
pub use laws::case_laws;
pub use status::Status;
pub use stop::Stop;
