//! The top call.

ghost use Rattle.std.specs.Prelude.{◌≡◌, ◌↔◌, ◌≤◌, Some, None, false};
ghost use Rattle.pst_io.specs.Causes.{Rose};
ghost use Rattle.pst_cli_words.specs.declared.job.Job.{Job};
ghost use Rattle.pst_cli_words.specs.Jobs.{task_in, OnBench, OnQuestion, OnPack, OnResume, OnServe, OnRepack};
ghost use Rattle.pst_cli_questions.specs.Asking.{AskRow};
ghost use Rattle.pst_cli_images.specs.Packing.{PackRow};
ghost use Rattle.pst_cli_images.specs.Resuming.{ResumeRow, resumed_in};
ghost use Rattle.pst_cli_images.specs.Repacking.{RepackRow};
ghost use Rattle.pst_cli_serve.specs.Serving.{ServeRow};
ghost use Rattle.pst_cli_bench.specs.Bench.{BenchRow, bench_lines};
ghost use Rattle.pst_samples.specs.declared.TheConstants.{RING};
ghost use Rattle.pst_line.specs.Store.{IsEmpty};
ghost use Rattle.pst_cli_serving.specs.Rows.{HasRow, Row, ServesJob, UnlessFailed, Completes};
ghost use Rattle.pst_cli_serving.specs.Held.{run_in};
ghost use Rattle.pst_cli.specs.Endings.{works_over_store, MayEnd};
ghost use Rattle.pst_cli.specs.Held.{both_in};
ghost use Rattle.pst_cli_scripts.specs.Sessions.{HasTaken};

use pst_cli_bench::bench;
use pst_cli_images::{pack_input, repack_input, resume_input};
use pst_cli_questions::ask;
use pst_cli_scripts::read_text;
use pst_cli_serve::serve_input;
use pst_cli_serving::{Lining, Replaying, Running, print, serve, status_of};
use pst_cli_words::{Job, Question, Status, Task, path_in, task_of};
use pst_front::Page;
use pst_io::{Lines, Sink, Source};
use pst_line::calls::LineCalls;
use pst_order::{Order, Walked};
use pst_samples::ring;
use pst_store::StoreOf;
use pst_store_arena::{FatNodes, Listed};
use std::alloc::Global;

/// Does everything that the program does.
///
/// The words are `run`, `replay`, `line`, `check`, `code`, `pack`, `resume`, `serve` or `repack`, or `bench` and a number, or `dump` and a
/// version, or `changed`, a version and a path.
///
/// For `bench` nothing is read: the script of the bench with that number is carried out for the program of a ring, and a summary of
/// what came of it is written as one piece.
///
/// For `resume` the input is an image, as `pack` writes it, and directly behind it a script. It is read to its end first, and the image is
/// judged: one of which a rule fails is answered by the line `refused image RULE` alone, with the number of the first rule that does, from 0
/// to 9, and the store stays as it was. Else the store becomes that of the image, and each line of the script is carried out and answered as
/// for `run`, with the image as the opening.
///
/// For `serve` the input is the same. The image is read as far as its own sizes tell, and less than one read of 65,536 bytes beyond; it is
/// judged as for `resume`; and then each line of the script is carried out and answered before the next one is waited for. A line may also
/// be a question, which changes nothing: `dump` and a version, answered by the dump and the line `ok`, or `changed`, a version and a path.
/// The input may have 2^62 bytes.
///
/// For `repack` the input, of at most 2^62 bytes, is read and judged as for `resume`, and the script is carried out so, but no reply is written. Then the image of the
/// store is written, with the image's text, the number of the next run and the budget that stands. Open runs are not part of it. Where more
/// was counted than an image can hold, which no script behind an image that the program wrote comes to, the line `refused image 2` is.
///
/// Otherwise the input up to its separator line, or to its end, is read first, and the program is judged: a refused one is answered
/// by the line of its fault alone. For `check` its canonical text is written then, and for `code` the listing of its code. For `run`,
/// `replay` and `line` each line of the script is read, carried out and answered before the next one is read, and each reply is
/// written as one piece. For `line` only the newest version is written: commands are answered as those of a linear history.
///
/// For `dump` and `changed` the script is read and carried out as for `run`, and no reply is written. Then the dump of the version
/// is written; or the line `changed W` with the first version `W`, on the way from the version to version 0, that changed what the
/// path reads; or `never`. The line `refused path` is written exactly where the program has no such path, and else
/// `refused version` exactly where no version has the number.
///
/// For `pack` the script is read and carried out as for `run`, and no reply is written. Then the image of the store is written, with the
/// program's canonical text, the number of the next run and the budget that stands. Open runs are not part of it.
pub fn persist<S: Source, K: Sink, O: Walked + Drop, N: Listed, L: LineCalls>(
    alloc: Global,
    words: &[String],
    source: &mut S,
    sink: &mut K,
    store: &mut StoreOf<O, N>,
    line: &mut L,
) -> Status
    // The stores are as `empty` makes them.
    requires empty { store.old ≡ None }
    requires empty_line { IsEmpty (L.stored line.old) }

    // What a job has read and written, and what each store is left in, where the source tells its bytes.
    ensures table { ServesJob words.now S.left source.old source.new K.taken sink.old sink.new result (both_in L.state L.stored store.old store.new line.old line.new) }

    // The bench reads nothing. What it has written, and what the store is left in.
    ensures bench { OnBench words.now (λ number. (source.new ≡ source.old) × HasTaken K.taken sink.old sink.new (BenchRow result RING.now (bench_lines number) store.old store.new)) }

    // What a question has read and written, and what the store is left in: as after `run`, and the answer about it.
    ensures asked { OnQuestion words.now (λ asked path. HasRow S.left source.old source.new K.taken sink.old sink.new (AskRow result (run_in store.old store.new) asked path)) }

    // What packing has read and written, and what the store is left in: as after `run`, and its image.
    ensures packed { OnPack words.now (HasRow S.left source.old source.new K.taken sink.old sink.new (PackRow result (run_in store.old store.new) store.new)) }

    // What resuming has read and written, and what the store is left in: that of the image, after the script behind it.
    ensures resumed { OnResume words.now (HasRow S.left source.old source.new K.taken sink.old sink.new (ResumeRow result (resumed_in store.old store.new))) }

    // What serving has read and written, and what the store is left in: as resuming, line by line, and the answers to questions.
    ensures served { OnServe words.now (HasRow S.left source.old source.new K.taken sink.old sink.new (ServeRow result (resumed_in store.old store.new))) }

    // What repacking has read and written, and what the store is left in: as resuming, and its image.
    ensures repacked { OnRepack words.now (HasRow S.left source.old source.new K.taken sink.old sink.new (RepackRow result (resumed_in store.old store.new) store.new)) }

    // Only `run`, the bench, the questions, `pack`, `resume`, `serve` and `repack` work over the store, and only `line` over the line store:
    // every other word leaves them as they were handed in, whatever the source tells.
    ensures tree { works_over_store (task_in words.now) ≡ false → store.new ≡ store.old }
    ensures line { (task_in words.now ≡ Some (Task.Input Job.Line) → ⊥) → line.new ≡ line.old }

    // When each status comes.
    ensures read { result ≡ Status.ReadFault → Rose (S.faults source.old) (S.faults source.new) }
    ensures write { result ≡ Status.WriteFault → Rose (K.faults sink.old) (K.faults sink.new) }
    ensures usage { (result ≡ Status.Usage) ↔ (task_in words.now ≡ None) }
    ensures complete { Completes S.left S.faults source.old source.new K.faults sink.old sink.new (task_in words.now) result }
    ensures answered { UnlessFailed S.faults source.old source.new K.faults sink.old sink.new (MayEnd (task_in words.now) result) }
    ensures later { (S.faults source.old ≤ S.faults source.new) × (K.faults sink.old ≤ K.faults sink.new) }

    // Nothing is read or written.
    ensures silent { result ≡ Status.Usage → (source.new ≡ source.old) × (sink.new ≡ sink.old) × (store.new ≡ store.old) × (line.new ≡ line.old) }
{
    match task_of(words) {
        None => Status::Usage,
        Some(Task::Input(job)) => carry_out(alloc, job, source, sink, store, line),
        Some(Task::Ask(question)) => ask(alloc, question, path_in(words), source, sink, store),
        Some(Task::Bench(number)) => { bench(alloc, ring().as_bytes(), number, sink, store) }
        Some(Task::Pack) => pack_input(alloc, source, sink, store),
        Some(Task::Resume) => resume_input(alloc, source, sink, store),
        Some(Task::Serve) => serve_input(alloc, source, sink, store),
        Some(Task::Repack) => repack_input(alloc, source, sink, store),
    }
}

/// Does a job. The reader of a program that is only printed goes once the text is read: if it went last, the allocator would first
/// gather all the small pieces that the program's tree has left.
fn carry_out<S: Source, K: Sink, O: Order + Drop, N: FatNodes, L: LineCalls>(
    alloc: Global,
    job: Job,
    source: &mut S,
    sink: &mut K,
    store: &mut StoreOf<O, N>,
    line: &mut L,
) -> Status
    requires empty { store.old ≡ None }
    requires empty_line { IsEmpty (L.stored line.old) }
    ensures table { HasRow S.left source.old source.new K.taken sink.old sink.new (Row result (both_in L.state L.stored store.old store.new line.old line.new job) job) }
    ensures tree { works_over_store (Some (Task.Input job)) ≡ false → store.new ≡ store.old }
    ensures line { (job ≡ Job.Line → ⊥) → line.new ≡ line.old }
    ensures read { result ≡ Status.ReadFault → Rose (S.faults source.old) (S.faults source.new) }
    ensures write { result ≡ Status.WriteFault → Rose (K.faults sink.old) (K.faults sink.new) }
    ensures not_usage { result ≡ Status.Usage → ⊥ }
    ensures later { (S.faults source.old ≤ S.faults source.new) × (K.faults sink.old ≤ K.faults sink.new) }
{
    let mut lines = Lines::new(alloc);
    match read_text(alloc, &mut lines, source) {
        Err(stop) => status_of(stop),
        Ok(text) => match job {
            Job::Check => {
                drop(lines);
                print(alloc, Page::Canonical, text, sink)
            }
            Job::Code => {
                drop(lines);
                print(alloc, Page::Listing, text, sink)
            }
            Job::Run => serve::<Running<O, N>, S, K>(alloc, text, store, &mut lines, source, sink),
            Job::Replay => serve::<Replaying, S, K>(alloc, text, &mut (), &mut lines, source, sink),
            Job::Line => serve::<Lining<L>, S, K>(alloc, text, line, &mut lines, source, sink),
        },
    }
}
