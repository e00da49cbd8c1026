ghost use Rattle.std.specs.Prelude.{◌≡◌, ◌↔◌, ℕ, List, Bool, Result, take, IfOk, IfSome, ⊤};
ghost use Rattle.std.specs.IoError.{error_kind};
ghost use Rattle.xs_base.specs.declared.files.FileFault.{FileFault};

use crate::real_sink::send;
use crate::{FileBytes, FileFault};
use std::alloc::Global;
use std::io::{ErrorKind, Read};
use std::{fs, io};

/// How many bytes of a file are read at most: one more than a file that is read has.
const MOST: u64 = 268435457;

/// What holds files of which contracts know nothing. That an answer of `RealFiles` is the one that came from
/// here is what they say. (Own rule.)
pub trait Disk {
    /// What reading a name may answer.
    ghost loads: { Self → List ℕ → Result (List ℕ) FileFault → Type 0 };

    /// What writing bytes under a name may answer.
    ghost stores: { Self → List ℕ → List ℕ → Bool → Type 0 };

    /// The first 268,435,457 bytes under the name, or all where there are fewer. `Absent` where nothing is found.
    fn load(&self, alloc: Global, name: &str) -> Result<FileBytes, FileFault>
        ensures { loads self.now name.now result };

    /// Puts the bytes under the name, and says whether that came to its end.
    fn store(&self, name: &str, bytes: &[u8]) -> bool
        ensures { stores self.now name.now bytes.now result };
}

// `Absent` exactly where nothing is found, and `Memory` exactly where memory is wanting.
fn fault_of(error: &io::Error) -> FileFault
    ensures absent { result ≡ FileFault.Absent ↔ error_kind error.now ≡ ErrorKind.NotFound }
    ensures memory { result ≡ FileFault.Memory ↔ error_kind error.now ≡ ErrorKind.OutOfMemory }
{
    match error.kind() {
        ErrorKind::NotFound => FileFault::Absent,
        ErrorKind::OutOfMemory => FileFault::Memory,
        _ => FileFault::Failed,
    }
}

fn front<R: Read + Drop>(alloc: Global, from: R) -> io::Result<FileBytes>
    ensures { IfOk result (λ bytes. IfSome (R.remaining from) (λ all. bytes ≡ take 268435457 all)) }
{
    let mut bytes = Vec::new(alloc);
    from.take(MOST).read_to_end(&mut bytes)?;
    Ok(FileBytes::from_vec(bytes))
}

fn open_front<R: fs::Files>(rt: &R, alloc: Global, name: &str) -> io::Result<FileBytes> {
    front(alloc, fs::File::open(rt, name)?)
}

/// The files of a runtime. A name is a path.
impl<'a, R: fs::Files> Disk for &'a R {
    ghost loads = { λ _ _ _. ⊤ };

    ghost stores = { λ _ _ _ _. ⊤ };

    fn load(&self, alloc: Global, name: &str) -> Result<FileBytes, FileFault> {
        match open_front(*self, alloc, name) {
            Ok(bytes) => Ok(bytes),
            Err(error) => Err(fault_of(&error)),
        }
    }

    fn store(&self, name: &str, bytes: &[u8]) -> bool {
        match fs::File::create(*self, name) {
            Ok(mut file) => send(&mut file, bytes).is_ok(),
            Err(_) => false,
        }
    }
}
