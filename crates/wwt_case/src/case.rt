ghost use Rattle.std.specs.Prelude.{◌≡◌, ◌≢◌, ◌≤◌, ◌⊎◌, ◌∷◌, [], Some, Err, All, length, IfOk, IfErr, IfSome};
ghost use Rattle.elf_image.specs.Sizes.{HoldsItsBytes};
ghost use Rattle.machine_json.specs.Description.{description_of, HasImages};
ghost use Rattle.wwt_case.specs.Case.{plan_of, command_plan, check_plan, run_plan, with_budget_of, generated_plan, described_plan, machine_plan, loaded_machine, description_plan, description_or, dis_plan, dis_of, flat_plan, flat_of, input_name, AreWorkers, HasRanges, IsBudget, IsLoaded, IsReady, workers_called, workers_of_job};
ghost use Rattle.wwt_words.specs.Workers.{workers_in};
ghost use Rattle.wwt_case.specs.Reading.{Answers, AnswersUsage, Reads, IsByItsName, IsOther};

use crate::images::{Images, read_images};
use crate::job::{Described, Job};
use crate::name::Name;
use crate::program::{flat, has_magic, load_images, program};
use crate::read::read_file;
use crate::refusal::{FileKind, Refusal};
use elf_image::Bytes;
use gen_load::generate;
use machine_json::{Description, MachineFault, read_machine};
use std::alloc::Global;
use wt_outside::Store;
use wt_params::Machine;
use wwt_words::{Command, WordFault, read_words};

/// The job that the words and the files of the store call for, or why there is none. Each name that is listed for it is
/// read once, in order, and none after a refusal.
pub fn prepare<S: Store>(alloc: Global, words: &[String], store: &mut S) -> Result<Job, Refusal>
    ensures read { Reads (plan_of words.now) S.view store.old store.new result }
    ensures usage { AnswersUsage (plan_of words.now) store.old store.new result }
    ensures workers { IfOk result (λ job. workers_of_job job ≡ workers_called words.now) }
    ensures ready { IfOk result IsReady }
    ensures reads { result ≢ Err Refusal.Write }
    ensures wanting { IfErr result IsByItsName }
{
    match read_words(alloc, words) {
        Ok(command) => prepare_command(alloc, &command, store),
        Err(WordFault::Usage) => Err(Refusal::Usage),
        Err(WordFault::NoMemory) => Err(Refusal::NoMemory),
    }
}

/// The job of a command.
fn prepare_command<S: Store>(
    alloc: Global,
    command: &Command,
    store: &mut S,
) -> Result<Job, Refusal>
    requires { HasRanges command.now }
    ensures read { Reads (command_plan (Some command.now)) S.view store.old store.new result }
    ensures usage { AnswersUsage (command_plan (Some command.now)) store.old store.new result }
    ensures workers { IfOk result (λ job. workers_of_job job ≡ workers_in command.now) }
    ensures ready { IfOk result IsReady }
    ensures reads { result ≢ Err Refusal.Write }
    ensures wanting { IfErr result IsByItsName }
{
    match command {
        Command::Check { machine } => prepare_check(alloc, machine.get(), store),
        Command::Dis { image } => prepare_dis(alloc, image.get(), store),
        Command::Flat => prepare_flat(alloc, store),
        Command::Run {
            workers,
            trace,
            memory,
            budget,
            machine,
        } => {
            let name = machine.get();
            prepare_run(alloc, name, *workers, *budget, *trace, *memory, store)
        }
        Command::Load { number, workers } => prepare_load(alloc, *number, *workers, store),
    }
}

/// A machine to be printed.
fn prepare_check<S: Store>(alloc: Global, name: &str, store: &mut S) -> Result<Job, Refusal>
    ensures read { Reads (check_plan name.now) S.view store.old store.new result }
    ensures workers { IfOk result (λ job. workers_of_job job ≡ 1) }
    ensures ready { IfOk result IsReady }
    ensures other { IsOther result }
{
    match prepare_described(alloc, name, store) {
        Ok(described) => Ok(Job::Check {
            version: described.version,
            machine: described.machine,
            loaded: described.loaded,
        }),
        Err(refusal) => Err(refusal),
    }
}

/// A machine to be run by so many workers, up to its own budget or up to another.
fn prepare_run<S: Store>(
    alloc: Global,
    name: &str,
    workers: u32,
    budget: Option<u64>,
    trace: bool,
    memory: bool,
    store: &mut S,
) -> Result<Job, Refusal>
    requires workers { AreWorkers workers }
    requires budget { IfSome budget IsBudget }
    ensures read { Reads (run_plan name.now workers budget trace memory) S.view store.old store.new result }
    ensures workers { IfOk result (λ job. workers_of_job job ≡ workers) }
    ensures ready { IfOk result IsReady }
    ensures other { IsOther result }
{
    match prepare_described(alloc, name, store) {
        Ok(described) => Ok(Job::Run {
            machine: with_budget(&described.machine, budget),
            loaded: described.loaded,
            workers,
            trace,
            memory,
        }),
        Err(refusal) => Err(refusal),
    }
}

/// A machine with another budget, where one is given.
fn with_budget(machine: &Machine, budget: Option<u64>) -> Machine
    requires { IfSome budget IsBudget }
    ensures { result ≡ with_budget_of budget machine.now }
{
    match budget {
        Some(budget) => machine.with_budget(budget),
        None => *machine,
    }
}

/// A generated machine to be run by so many workers.
fn prepare_load<S: Store>(
    alloc: Global,
    number: u64,
    workers: u32,
    store: &mut S,
) -> Result<Job, Refusal>
    requires number { number ≤ 9999 }
    requires workers { AreWorkers workers }
    ensures read { Reads (generated_plan number workers) S.view store.old store.new result }
    ensures workers { IfOk result (λ job. workers_of_job job ≡ workers) }
    ensures ready { IfOk result IsReady }
    ensures other { IsOther result }
{
    let description = generate(alloc, number)?;
    match prepare_machine(alloc, &description, store) {
        Ok(described) => Ok(Job::Load {
            machine: described.machine,
            loaded: described.loaded,
            workers,
        }),
        Err(refusal) => Err(refusal),
    }
}

/// The machine of a description of a name, with its images loaded.
fn prepare_described<S: Store>(
    alloc: Global,
    name: &str,
    store: &mut S,
) -> Result<Described, Refusal>
    ensures read { Reads (described_plan name.now) S.view store.old store.new result }
    ensures ready { IfOk result IsLoaded }
    ensures other { IsOther result }
{
    match read_description(alloc, name, store) {
        Ok(description) => prepare_machine(alloc, &description, store),
        Err(refusal) => Err(refusal),
    }
}

/// The machine of a description, with the images read and loaded.
fn prepare_machine<S: Store>(
    alloc: Global,
    description: &Description,
    store: &mut S,
) -> Result<Described, Refusal>
    requires { HasImages description.now }
    ensures read { Reads (machine_plan description.now) S.view store.old store.new result }
    ensures ready { IfOk result IsLoaded }
    ensures other { IsOther result }
{
    // (one image for each of 256 nodes at most)
    let _nodes = description.machine.nodes();
    match read_images(
        alloc,
        Images::new(alloc),
        0,
        description.images.get(),
        store,
    ) {
        Ok(images) => loaded_machine(description, images),
        Err(refusal) => Err(refusal),
    }
}

/// The machine of a description, with its images loaded.
fn loaded_machine(description: &Description, images: Images) -> Result<Described, Refusal>
    requires count { (length images ≡ 1) ⊎ (length images ≡ description.now.machine.nodes) }
    requires bytes { All HoldsItsBytes images }
    ensures answer { Answers (loaded_machine description.now images) result }
    ensures ready { IfOk result IsLoaded }
    ensures other { IsOther result }
{
    match load_images(&description.machine, images.into_inner()) {
        Ok(loaded) => Ok(Described {
            version: description.version,
            machine: description.machine,
            loaded,
        }),
        Err(refusal) => Err(refusal),
    }
}

/// The description of a name.
fn read_description<S: Store>(
    alloc: Global,
    name: &str,
    store: &mut S,
) -> Result<Description, Refusal>
    ensures read { Reads (description_plan name.now) S.view store.old store.new result }
    ensures images { IfOk result HasImages }
    ensures other { IsOther result }
{
    let file = Name::new(alloc, name)?;
    match read_file(store, file, FileKind::Description) {
        Ok(bytes) => describe(alloc, bytes.get()),
        Err(refusal) => Err(refusal),
    }
}

/// What the bytes of a description say.
fn describe(alloc: Global, bytes: &[u8]) -> Result<Description, Refusal>
    ensures answer { Answers (description_or (description_of bytes.now)) result }
    ensures images { IfOk result HasImages }
    ensures other { IsOther result }
{
    match read_machine(alloc, bytes) {
        Ok(description) => Ok(description),
        Err(MachineFault::NoMemory) => Err(Refusal::NoMemory),
        Err(fault) => Err(Refusal::Machine { fault }),
    }
}

/// The image of a name, whose words are to be printed.
fn prepare_dis<S: Store>(alloc: Global, name: &str, store: &mut S) -> Result<Job, Refusal>
    ensures read { Reads (dis_plan name.now) S.view store.old store.new result }
    ensures workers { IfOk result (λ job. workers_of_job job ≡ 1) }
    ensures ready { IfOk result IsReady }
    ensures other { IsOther result }
{
    let file = Name::new(alloc, name)?;
    match read_file(store, file, FileKind::Image { number: 0 }) {
        Ok(bytes) => dis_job(alloc, bytes),
        Err(refusal) => Err(refusal),
    }
}

/// The image of the bytes of a file, which is an executable where it begins as one does.
fn dis_job(alloc: Global, bytes: Bytes) -> Result<Job, Refusal>
    ensures answer { Answers (dis_of bytes) result }
    ensures workers { IfOk result (λ job. workers_of_job job ≡ 1) }
    ensures ready { IfOk result IsReady }
    ensures other { IsOther result }
{
    let elf = has_magic(bytes.get());
    match program(alloc, 0, elf, 0, bytes) {
        Ok(image) => Ok(Job::Dis { image }),
        Err(refusal) => Err(refusal),
    }
}

/// Flat bytes from standard input.
fn prepare_flat<S: Store>(alloc: Global, store: &mut S) -> Result<Job, Refusal>
    ensures read { Reads (flat_plan input_name) S.view store.old store.new result }
    ensures workers { IfOk result (λ job. workers_of_job job ≡ 1) }
    ensures ready { IfOk result IsReady }
    ensures other { IsOther result }
{
    let file = Name::new(alloc, "-")?;
    match read_file(store, file, FileKind::Image { number: 0 }) {
        Ok(bytes) => flat_job(alloc, bytes),
        Err(refusal) => Err(refusal),
    }
}

/// Flat bytes, loaded into the flat machine.
fn flat_job(alloc: Global, bytes: Bytes) -> Result<Job, Refusal>
    ensures answer { Answers (flat_of bytes) result }
    ensures workers { IfOk result (λ job. workers_of_job job ≡ 1) }
    ensures ready { IfOk result IsReady }
    ensures other { IsOther result }
{
    let image = flat(alloc, bytes.into_inner(), 0)?;
    let mut images = Images::new(alloc);
    images.push(image)?;
    match load_images(&Machine::flat(), images.into_inner()) {
        Ok(loaded) => Ok(Job::Flat { loaded }),
        Err(refusal) => Err(refusal),
    }
}
