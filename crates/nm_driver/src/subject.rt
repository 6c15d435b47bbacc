//! What is printed of an application, and what is run: its image, or one from a file.

ghost use Rattle.std.specs.Prelude.{◌≡◌, ℕ, List, Option, Some, IfOk, IfErr, string_bytes};
ghost use Rattle.nesc_core.specs.View.{program_of};
ghost use Rattle.nesc_core.specs.WellFormed.{IsWellFormed};
ghost use Rattle.nesc_preproc.specs.Expands.{Told};
ghost use Rattle.nesc_programs.specs.Programs.{IsProgram};
ghost use Rattle.nm_words.specs.Modes.{IsSubject};
ghost use Rattle.nm_driver.specs.Applications.{Builds, CanBeBuilt, IsAccepted};
ghost use Rattle.nm_driver.specs.Generated.{generated_app};
ghost use Rattle.nm_driver.specs.MeetsProgram.{MeetsProgram};
ghost use Rattle.nm_driver.specs.Output.{Reported as ReportedOf};
ghost use Rattle.nm_driver.specs.Prepared.{IfSays, IsInside, PrintsAs, PrintsTotals, Reads, SaysOfGenerated, SaysOfProgram, SaysOfSource, SaysOfSubject};
ghost use Rattle.nm_driver.specs.RunText.{sizes_text};

use crate::answer::Stop;
use crate::compile::compile;
use crate::files::read_loaded;
use crate::generated::{files_of, of_generated};
use crate::report::report_text;
use crate::source::read_application;
use mote_text::{Loaded, load_image};
use msp_isa::Image;
use nesc_programs::Application;
use nm_base::{Files, NoMemory};
use nm_words::{Mode, modules_of};
use std::alloc::Global;

/// What was built of an application: the lines of its bytes of data and of stack, and its image.
#[derive(Drop)]
pub(crate) struct Built {
    pub sizes: String,
    pub image: Image,
}

/// What is printed of an application before its trace: its race report, and what was built.
#[derive(Drop)]
pub(crate) struct Head {
    pub report: Vec<u8>,
    pub built: Option<Built>,
}

/// What is printed behind that: nothing, the trace of an image, or the totals of the run of an image of so many modules.
#[derive(Drop)]
pub(crate) enum Tail {
    Nothing,
    Trace(Loaded),
    Totals(u32, Loaded),
}

/// What is printed of an application, and what is run.
#[derive(Drop)]
pub(crate) struct Subject {
    pub head: Option<Head>,
    pub tail: Tail,
}

// An application with the text of its race report.
#[derive(Drop)]
struct Reported {
    application: Application,
    report: Vec<u8>,
}

fn sizes_of(alloc: Global, image: &Image) -> Result<String, NoMemory>
    ensures { IfOk result (λ text. string_bytes text ≡ sizes_text image.now.ram image.now.stack) }
{
    let ram = image.ram;
    let stack = image.stack;
    Ok(format!(in alloc; "data {ram}\nstack {stack}\n")?)
}

fn reported_of<F: Files>(alloc: Global, files: &mut F, app: &str) -> Result<Reported, Stop>
    ensures outside { Reads result (F.seen files.old) (F.seen files.new) }
    ensures formed { IfOk result (λ r. IsWellFormed (program_of r.application.program)) }
    ensures program { IfOk result (λ r. (told : Told) → (F.seen files.old).texts ≡ Some told → IsProgram told app.now (program_of r.application.program) r.application.reading) }
    ensures reported { IfOk result (λ r. (a : ReportedOf (F.seen files.old).texts app.now) × (a.program ≡ program_of r.application.program) × (a.report ≡ r.report.items)) }
    ensures says { IfErr result (λ s. IfSays s (λ a. (mode : Mode) → SaysOfSource (F.seen files.old).texts mode app.now a)) }
{
    let application = read_application(alloc, files, app)?;
    let report = report_text(alloc, app, &application)?;
    Ok(Reported {
        application,
        report,
    })
}

fn built_of(alloc: Global, a: Application) -> Result<Built, Stop>
    requires formed { IsWellFormed (program_of a.program) }
    requires accepted { IsAccepted (program_of a.program) }
    ensures meets { IfOk result (λ b. MeetsProgram (program_of a.program) b.image.code.items b.image.vectors b.image.ram b.image.stack) }
    ensures builds { IfOk result (λ _. CanBeBuilt (program_of a.program)) }
    ensures sizes { IfOk result (λ b. string_bytes b.sizes ≡ sizes_text b.image.ram b.image.stack) }
    ensures says { IfErr result (λ s. IfSays s (λ answer. (app : List ℕ) (mode : Mode) → Builds mode → SaysOfProgram mode app a answer)) }
{
    let image = compile(alloc, a)?;
    Ok(Built {
        sizes: sizes_of(alloc, &image)?,
        image,
    })
}

fn checked<F: Files>(alloc: Global, files: &mut F, app: &str) -> Result<Subject, Stop>
    ensures outside { Reads result (F.seen files.old) (F.seen files.new) }
    ensures prints { IfOk result (PrintsAs (F.seen files.old).texts Mode.Check app.now) }
    ensures says { IfErr result (λ s. IfSays s (SaysOfSource (F.seen files.old).texts Mode.Check app.now)) }
{
    let reported = reported_of(alloc, files, app)?;
    Ok(Subject {
        head: Some(Head {
            report: reported.report,
            built: None,
        }),
        tail: Tail::Nothing,
    })
}

fn compiled<F: Files>(alloc: Global, files: &mut F, app: &str) -> Result<Subject, Stop>
    ensures outside { Reads result (F.seen files.old) (F.seen files.new) }
    ensures prints { IfOk result (PrintsAs (F.seen files.old).texts Mode.Build app.now) }
    ensures says { IfErr result (λ s. IfSays s (SaysOfSource (F.seen files.old).texts Mode.Build app.now)) }
{
    let reported = reported_of(alloc, files, app)?;
    let built = built_of(alloc, reported.application)?;
    Ok(Subject {
        head: Some(Head {
            report: reported.report,
            built: Some(built),
        }),
        tail: Tail::Nothing,
    })
}

fn runnable<F: Files>(alloc: Global, files: &mut F, app: &str) -> Result<Subject, Stop>
    ensures outside { Reads result (F.seen files.old) (F.seen files.new) }
    ensures prints { IfOk result (PrintsAs (F.seen files.old).texts Mode.Run app.now) }
    ensures says { IfErr result (λ s. IfSays s (SaysOfSource (F.seen files.old).texts Mode.Run app.now)) }
{
    let reported = reported_of(alloc, files, app)?;
    let built = built_of(alloc, reported.application)?;
    let image = load_image(alloc, &built.image)?;
    Ok(Subject {
        head: Some(Head {
            report: reported.report,
            built: Some(built),
        }),
        tail: Tail::Trace(image),
    })
}

// The application of so many modules, from these files.
fn made<F: Files>(alloc: Global, files: &mut F, modules: u32) -> Result<Subject, Stop>
    ensures prints { IfOk result (PrintsTotals (F.seen files.old).texts modules) }
    ensures says { IfErr result (λ s. IfSays s (SaysOfSource (F.seen files.old).texts Mode.Gen generated_app)) }
{
    let reported = reported_of(alloc, files, "GenAppC")?;
    let built = built_of(alloc, reported.application)?;
    let image = load_image(alloc, &built.image)?;
    Ok(Subject {
        head: Some(Head {
            report: reported.report,
            built: Some(built),
        }),
        tail: Tail::Totals(modules, image),
    })
}

// The application of so many modules, from files that are made.
fn generated(alloc: Global, word: &str) -> Result<Subject, Stop>
    requires { IsSubject Mode.Gen word.now }
    ensures prints { IfOk result (λ s. (told : Option Told) → PrintsAs told Mode.Gen word.now s) }
    ensures says { IfErr result (λ s. IfSays s (SaysOfGenerated word.now)) }
    ensures inside { IfErr result (λ s. IfSays s (λ a. IsInside a.status)) }
{
    let modules = modules_of(word);
    let mut files = files_of(alloc, modules)?;
    match made(alloc, &mut files, modules) {
        Ok(subject) => Ok(subject),
        Err(stop) => Err(of_generated(stop)),
    }
}

/// What a mode prints and runs of an application, or of the image in a file.
pub(crate) fn subject_of<F: Files>(
    alloc: Global,
    files: &mut F,
    mode: Mode,
    name: &str,
) -> Result<Subject, Stop>
    requires { IsSubject mode name.now }
    ensures outside { Reads result (F.seen files.old) (F.seen files.new) }
    ensures prints { IfOk result (PrintsAs (F.seen files.old).texts mode name.now) }
    ensures says { IfErr result (λ s. IfSays s (SaysOfSubject (F.seen files.old).texts mode name.now)) }
{
    match mode {
        Mode::Check => checked(alloc, files, name),
        Mode::Build => compiled(alloc, files, name),
        Mode::Run => runnable(alloc, files, name),
        Mode::Mote => Ok(Subject {
            head: None,
            tail: Tail::Trace(read_loaded(alloc, files, name)?),
        }),
        Mode::Gen => generated(alloc, name),
    }
}
