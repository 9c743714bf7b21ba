//! A store in two files, of which one counts: an image, and the commands since.
//!
//! Model: a file is a gate, a generation, the image's length and digest, the image, and a text of groups (`content`). It counts where its
//! gate is open and its image whole (`standing`); of two the one of the later generation does (`stands`). Two files keep an image and
//! commands (`Keeps`) where the digest and each group's check are right.
//!
//! Contract: `create` makes a store in two empty files, `append` keeps commands, `checkpoint` puts an image in the place of all that was
//! kept, and `open` finds it again behind a crash. Each says what a crash leaves at any of its returns (`any_return`): `append` all or
//! nothing of what it was given, `checkpoint` what was kept or the new image, `open` what was kept. What is damaged is refused by its
//! cause, and then nothing is changed (`refused`, `unchanged`); no clause on crashes rests on a digest or a check. `lives` says it of any
//! number of days, each cut short at any moment (`LivesLaw`). All of it is said of any `Disk` of the kit.
#![tactic(auto)]

mod checks;
mod error;
mod files;
mod head;
mod kept;
mod laws;
mod opening;
mod role;
mod stage;

pub use checks::{UnsealError, Unsealed, check, letters_of, sealed, unseal};
pub use error::FilesError;
pub use files::{append, checkpoint, create};
pub use head::{Glance, HEAD, look, which};
pub use kept::Kept;
pub use laws::lives;
pub use opening::{Opened, open};
pub use role::Role;
pub use stage::{ROOM, shut, write_whole};
