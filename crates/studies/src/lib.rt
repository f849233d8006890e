//! Studies of files: from the bytes of a feed and of an analyst's own files to the text of the matrix.
//!
//! - `study`: [`run_study`], the text of the matrix that the files ([`Inputs`], [`NamedFile`]) and the [`Settings`]
//!   mean, or the first [`StudyFault`]. Its stages, each making one value of those before it: `names`, `tables`,
//!   `networks` (with `scenario_files`), `matrix`, `text`; `parts` has what they hand on, and `boxes` puts it in boxes.
//! - `ready`: the two halves of a study, for who frees its files in between: [`ready_study`] reads them and makes the
//!   networks ([`ReadyStudy`]), and [`compute_study`] gives the text.
//! - `kept`: [`keep`] reads and makes what no question changes ([`Kept`]); `question`: [`answer`] gives the answer of
//!   a [`Question`] by it, [`answers`] those of a list. A study goes the same way: it makes what is kept, and answers
//!   its own question.
//! - `watch`: [`watch_study`] is [`run_study`] with a [`Watch`], who is told what each stage has made.
//! - `inputs`, `named_file`, `settings`: what a study is made of, and `limits`, within which; `fault`: why there is
//!   none.
//! - `laws`: a study has one text, which with destinations has some of the columns of the text without; no files are
//!   both refused and accepted; and a study whose gate lets each lease be worked at is never left unfinished.
//! - `feed_files`: [`FeedFiles`], the files of a feed as a program holds them.
//! - `plain`, not on the program's way: [`minute_line`], the durations of one minute over each trip of a feed once, as
//!   the definitions have them, without a window, scenarios or workers.
//!
//! `specs/Study` says what the inputs mean and which fault comes first.
#![tactic(auto)]

mod boxes;
mod fault;
mod feed_files;
mod inputs;
mod kept;
mod laws;
mod limits;
mod matrix;
mod named_file;
mod names;
mod networks;
mod parts;
mod plain;
mod question;
mod ready;
mod scenario_files;
mod settings;
mod study;
mod tables;
mod text;
mod watch;

pub use fault::StudyFault;
pub use feed_files::{FeedFiles, bytes_of};
pub use inputs::Inputs;
pub use kept::{Kept, keep};
pub use laws::{
    open_studies_finish, refused_have_no_meaning, texts_are_unique, texts_have_their_columns,
};
pub use limits::{MOST_DAYS, MOST_WORKERS, limits_are_as_stated};
pub use named_file::NamedFile;
pub use plain::minute_line;
pub use question::{Question, answer, answers};
pub use ready::{ReadyStudy, compute_study, ready_study};
pub use settings::Settings;
pub use study::{run_study, watch_study};
pub use watch::{Unwatched, Watch};
