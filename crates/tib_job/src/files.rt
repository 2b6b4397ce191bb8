// The value of one file of a command.
ghost use Rattle.std.specs.Prelude.{◌≡◌, ◌≤◌, ◌<◌, ◌+◌, ◌-◌, ◌^◌, ℕ, List, length, Some, IfOk, IfErr};
ghost use Rattle.tib_cost.specs.declared.Scale.{Scale};
ghost use Rattle.tib_lex.specs.Limits.{most_bytes};
ghost use Rattle.tib_command.specs.Jobs.{meaning};
ghost use Rattle.tib_job.specs.Kinds.{Kind, ValueOf, IsReadError, IsTextOf, OfFile, Told, file_at, kind_at};
ghost use Rattle.tib_job.specs.Causes.{scale_of};
ghost use Rattle.tib_job.specs.Steps.{LeavesFiles, StopsAtFile, files_seen};
ghost use Rattle.tib_job.specs.Values.{IsPrintableValue};
ghost use Rattle.tib_operations.specs.FileTexts.{IsShort};
ghost use Rattle.tib_tree.specs.Grows.{Grows};

use std::alloc::Global;
use tib_command::Job;
use tib_io::{FileError, Files, read_file};
use tib_lex::ReadError;
use tib_operations::Status;
use tib_tree::Labels;

/// What a file of a job holds, and how it is read.
pub trait FileValue {
    // The kind of such a file.
    ghost kind: { Kind };

    // The value of a file of that kind.
    ghost value: { Self → ValueOf kind };

    // It is read by this scale.
    ghost suits: { Scale → Type 0 };

    /// The value of a file's bytes. The error is their first fault, or `OutOfMemory`. New labels go
    /// into the table, also on an error. The cost is that of the reader of the kind.
    fn read(alloc: Global, bytes: &[u8], labels: &mut Labels) -> Result<Self, ReadError>
        requires short { IsShort bytes.now }
        requires room { length labels.old + length bytes.now < 2 ^ 32 - 1 }
        ensures text { IfOk result (λ v. (scale : Scale) → suits scale →
            IsTextOf scale labels.new kind (value v) bytes.now) }
        ensures printable { IfOk result (λ v. (scale : Scale) → suits scale →
            IsPrintableValue scale labels.new kind (value v)) }
        ensures fault { IfErr result (λ e. (scale : Scale) → suits scale →
            IsReadError scale kind bytes.now e) }
        ensures grows { Grows labels.old labels.new }
        ensures few { length labels.new ≤ length labels.old + length bytes.now };
}

// The name of a file of the job, which counts from 1.
fn name_of(job: &Job, file: u32) -> &str
    requires from { 1 ≤ file }
    requires to { file ≤ length job.now.files.items }
    ensures { file_at (Some (meaning job.now)) file ≡ Some result.now }
{
    job.files[file as usize - 1].as_str()
}

// The bytes of a file of the job, or the status with which the run ends.
fn bytes_of<F: Files>(alloc: Global, job: &Job, file: u32, files: &mut F) -> Result<Vec<u8>, Status>
    requires from { 1 ≤ file }
    requires to { file ≤ length job.now.files.items }
    ensures bytes { IfOk result (λ v. OfFile (Some (meaning job.now)) file
        (Told (F.held files.old) (λ bytes. (v.items ≡ bytes) × IsShort bytes))) }
    ensures short { IfOk result (λ v. IsShort v.items) }
    ensures status { IfErr result (StopsAtFile (Some (meaning job.now)) file
        (files_seen F.held F.sure F.faults files.old)
        (files_seen F.held F.sure F.faults files.new)) }
    ensures files { LeavesFiles (files_seen F.held F.sure F.faults files.old)
        (files_seen F.held F.sure F.faults files.new) }
{
    match read_file(alloc, files, name_of(job, file)) {
        Ok(bytes) => Ok(bytes),
        Err(FileError::ReadFault) => Err(Status::ReadFault { file }),
        Err(FileError::TooLong) => Err(Status::TooLong { file }),
        Err(FileError::OutOfMemory) => Err(Status::OutOfMemory),
    }
}

/// The value of a file of the job, which counts from 1. `ReadFault`, `TooLong` or `BadInput` names
/// the file; otherwise `OutOfMemory`. New labels go into the table, also on an error. The cost is
/// that of reading the file and its text once.
pub fn value_in<V: FileValue, F: Files>(
    alloc: Global,
    job: &Job,
    file: u32,
    files: &mut F,
    labels: &mut Labels,
) -> Result<V, Status>
    requires from { 1 ≤ file }
    requires to { file ≤ length job.now.files.items }
    requires kind { kind_at (Some (meaning job.now)) file ≡ Some V.kind }
    requires mode { V.suits (scale_of job.now.mode) }
    requires room { length labels.old + most_bytes < 2 ^ 32 - 1 }
    ensures text { IfOk result (λ v. OfFile (Some (meaning job.now)) file
        (Told (F.held files.old) (IsTextOf (scale_of job.now.mode) labels.new V.kind
        (V.value v)))) }
    ensures printable { IfOk result (λ v. IsPrintableValue (scale_of job.now.mode) labels.new
        V.kind (V.value v)) }
    ensures grows { Grows labels.old labels.new }
    ensures few { length labels.new ≤ length labels.old + most_bytes }
    ensures status { IfErr result (StopsAtFile (Some (meaning job.now)) file
        (files_seen F.held F.sure F.faults files.old)
        (files_seen F.held F.sure F.faults files.new)) }
    ensures files { LeavesFiles (files_seen F.held F.sure F.faults files.old)
        (files_seen F.held F.sure F.faults files.new) }
{
    let bytes = match bytes_of(alloc, job, file, files) {
        Ok(bytes) => bytes,
        Err(status) => return Err(status),
    };
    match V::read(alloc, &bytes, labels) {
        Ok(value) => Ok(value),
        Err(ReadError::Fault(fault)) => Err(Status::BadInput { file, fault }),
        Err(ReadError::OutOfMemory) => Err(Status::OutOfMemory),
    }
}
