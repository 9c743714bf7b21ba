//! What is asked of a session, which stays as it is.

ghost use Rattle.std.specs.Prelude.{◌≡◌, ◌^◌, [], None, Some, true, false, IfOk};
ghost use Rattle.pst_program.specs.Sound.{CountsWithin};
ghost use Rattle.pst_cli_questions.specs.Telling.{Tells};
ghost use Rattle.persist_live.specs.Standing.{OnEach, StandsForSome};
ghost use Rattle.persist_live.specs.Imaged.{IsImageOf};

use crate::live::Live;
use pst_base::{Counts, NoMemory, Text, VersionNo};
use pst_cli_questions::tell;
use pst_cli_scripts::Session;
use pst_cli_words::Question;
use pst_image_pack::pack;
use pst_versions::VersionedHeap;
use std::alloc::Global;

/// The most that an image can say was made or written.
const MOST_COUNTED: u64 = 1_125_899_906_842_624;

/// Whether an image can hold these counts.
fn are_few(counts: Counts) -> bool
    ensures few { result ≡ true → CountsWithin counts (2 ^ 50) }
    ensures many { result ≡ false → CountsWithin counts (2 ^ 50) → ⊥ }
{
    counts.records <= MOST_COUNTED
        && counts.pointer_writes <= MOST_COUNTED
        && counts.value_writes <= MOST_COUNTED
}

/// The answer to a question about the versions of a session.
fn answer_to(alloc: Global, live: &Live, question: Question, path: &[u8]) -> Result<Text, NoMemory>
    requires { StandsForSome live.now }
    ensures { IfOk result (λ text. OnEach live.now (λ m h. Tells live.now.session.code m h question path.now text)) }
{
    live.session.known(&live.store);
    tell(alloc, &live.store, live.session.program(), question, path)
}

/// The image of a session's store. None where more was counted than an image can hold.
fn image_of(alloc: Global, live: &Live) -> Result<Option<Text>, NoMemory>
    requires { StandsForSome live.now }
    ensures { IfOk result (λ image. OnEach live.now (IsImageOf live.now image)) }
{
    live.store.whole();
    if are_few(live.store.counts()) {
        let image = pack(
            alloc,
            &live.store,
            live.text.as_slice(),
            live.session.next_run(),
            live.session.budget(),
        )?;
        Ok(Some(image))
    } else {
        Ok(None)
    }
}

impl Live {
    /// Keeps the dump of a version, as the word `dump` writes it. After `NoMemory` the session is as before.
    ///
    /// # Errors
    /// Where there was no memory.
    pub fn dump(&mut self, alloc: Global, version: VersionNo) -> Result<(), NoMemory>
        requires { StandsForSome self.old }
        ensures told { IfOk result (λ _. OnEach self.old (λ m h. Tells self.old.session.code m h (Question.Dump version) [] self.new.said.items)) }
        ensures stands { StandsForSome self.new }
        ensures session { self.new.session ≡ self.old.session }
        ensures store { self.new.store ≡ self.old.store }
        ensures text { self.new.text ≡ self.old.text }
        ensures reply { self.new.reply ≡ self.old.reply }
    {
        let answer = answer_to(alloc, self, Question::Dump(version), &[])?;
        self.said = answer.into_vec();
        Ok(())
    }

    /// Keeps the line that says which version changed what a path reads, as the word `changed` writes it. After `NoMemory` the session is as
    /// before.
    ///
    /// # Errors
    /// Where there was no memory.
    pub fn changed(
        &mut self,
        alloc: Global,
        version: VersionNo,
        path: &[u8],
    ) -> Result<(), NoMemory>
        requires { StandsForSome self.old }
        ensures told { IfOk result (λ _. OnEach self.old (λ m h. Tells self.old.session.code m h (Question.Changed version) path.now self.new.said.items)) }
        ensures stands { StandsForSome self.new }
        ensures session { self.new.session ≡ self.old.session }
        ensures store { self.new.store ≡ self.old.store }
        ensures text { self.new.text ≡ self.old.text }
        ensures reply { self.new.reply ≡ self.old.reply }
    {
        let answer = answer_to(alloc, self, Question::Changed(version), path)?;
        self.said = answer.into_vec();
        Ok(())
    }

    /// Keeps the image of the versions, with the program's canonical text, and says whether there is one: not where more was counted than
    /// 1,125,899,906,842,624 records, pointer writes or value writes. Open runs are not part of it. After `NoMemory` the session is as before.
    ///
    /// # Errors
    /// Where there was no memory.
    pub fn image(&mut self, alloc: Global) -> Result<bool, NoMemory>
        requires { StandsForSome self.old }
        ensures image { IfOk result (λ there. there ≡ true → OnEach self.old (IsImageOf self.old (Some self.new.said.items))) }
        ensures too_much { IfOk result (λ there. there ≡ false → OnEach self.old (IsImageOf self.old None)) }
        ensures stands { StandsForSome self.new }
        ensures session { self.new.session ≡ self.old.session }
        ensures store { self.new.store ≡ self.old.store }
        ensures text { self.new.text ≡ self.old.text }
        ensures reply { self.new.reply ≡ self.old.reply }
    {
        match image_of(alloc, self)? {
            None => Ok(false),
            Some(image) => {
                self.said = image.into_vec();
                Ok(true)
            }
        }
    }
}
