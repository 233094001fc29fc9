ghost use Rattle.std.specs.Prelude.{◌≡◌, [], IfOk, Ok};

use dv_shelf::{Failed, Sink, Source};
use dv_streams::{CallFault, ReadCalls, ReadStream, WriteCalls, WriteStream};
use std::io::{self, ErrorKind, Read, Write};

/// The system's call that reads standard input. Nothing is told of what it does.
#[derive(Drop)]
pub(crate) struct InputCalls {
    rt: HostRuntime,
}

impl ReadCalls for InputCalls {
    ghost tells = { ⊥ };

    ghost left = { λ _. [] };

    ghost failures = { λ _. 0 };

    ghost interruptions = { λ _. 0 };

    fn read(&mut self, buf: &mut [u8]) -> Result<usize, CallFault> {
        answer(self.rt.stdin().read(buf))
    }
}

/// The system's call that writes standard output. Nothing is told of what it does.
#[derive(Drop)]
pub(crate) struct OutputCalls {
    rt: HostRuntime,
}

impl WriteCalls for OutputCalls {
    ghost tells = { ⊥ };

    ghost taken = { λ _. [] };

    ghost failures = { λ _. 0 };

    ghost interruptions = { λ _. 0 };

    fn write(&mut self, bytes: &[u8]) -> Result<usize, CallFault> {
        answer(self.rt.stdout().write(bytes))
    }
}

fn answer(done: io::Result<usize>) -> Result<usize, CallFault>
    ensures { IfOk result (λ count. done ≡ Ok count) }
{
    match done {
        Ok(count) => Ok(count),
        Err(e) if e.kind() == ErrorKind::Interrupted => Err(CallFault::Interrupted),
        Err(_) => Err(CallFault::Failed),
    }
}

/// Standard input. Each error of the system is counted.
#[derive(Drop)]
pub struct Input {
    stream: ReadStream<InputCalls>,
}

impl Input {
    /// Standard input, of which nothing is read yet.
    pub fn new(rt: HostRuntime) -> Input
        ensures { result.stream.faults ≡ 0 }
    {
        Input {
            stream: ReadStream::new(InputCalls { rt }),
        }
    }
}

impl Source for Input {
    ghost sees = { record {
      tells = ⊥;
      left = λ _. [];
      fault_count = λ s. s.stream.faults;
    } };

    fn read(&mut self, buf: &mut [u8]) -> Result<usize, Failed> {
        self.stream.read(buf)
    }

    fn faults(&self) -> u64 {
        self.stream.faults()
    }
}

/// Standard output. Each error of the system is counted.
#[derive(Drop)]
pub struct Output {
    stream: WriteStream<OutputCalls>,
}

impl Output {
    /// Standard output, to which nothing is written yet.
    pub fn new(rt: HostRuntime) -> Output
        ensures { result.stream.faults ≡ 0 }
    {
        Output {
            stream: WriteStream::new(OutputCalls { rt }),
        }
    }
}

impl Sink for Output {
    ghost sees = { record {
      tells = ⊥;
      taken = λ _. [];
      fault_count = λ s. s.stream.faults;
    } };

    fn write_all(&mut self, bytes: &[u8]) -> Result<(), Failed> {
        self.stream.write_all(bytes)
    }

    fn faults(&self) -> u64 {
        self.stream.faults()
    }
}

/// Writes a text to standard error. There is no other place to tell of a failure, so it is passed
/// over.
pub fn write_error(rt: HostRuntime, text: &[u8]) {
    let _ = rt.stderr().write_all(text);
}
