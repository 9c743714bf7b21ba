//! The top call: everything that the program does, over a source and a sink.
//!
//! Model: the bytes that the source tells, the bytes that the sink has taken, and what the two stores hold. The words ask for a
//! job, the bench, a question, an image, the replies to a script behind one, as a whole or line by line, or the image behind that, each of
//! which has a table by the status.
//!
//! Contract: [`persist`] does what the words ask for. What was read and written and what each store is left in is the row of the
//! status in the table of the job (`table`), of the bench (`bench`), of the question (`asked`), of the image (`packed`), of the script behind
//! an image (`resumed`), of the lines behind an image (`served`) or of the image behind that (`repacked`); nothing but want of memory keeps
//! it from its whole output where reads and writes do not fail and the input is not too long (`complete`).
//!
//!     let mut store: Store = Store::empty();
//!     let mut line = LineStore::empty();
//!     let status = persist(alloc, &words, &mut source, &mut sink, &mut store, &mut line);
//!     ExitCode::from(number(status))
#![tactic(auto)]

mod top;

pub use pst_cli_serving::input_has_one_output;
pub use pst_cli_words::{Job, Question, Status, Task, number};
pub use pst_front::{Fault, FaultKind, text_has_one_verdict};
pub use top::persist;
