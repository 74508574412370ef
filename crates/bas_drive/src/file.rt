ghost use Rattle.std.specs.Prelude.{◌≡◌, ◌≤◌, length, take, IfOk, IfSome, Some};
ghost use Rattle.bas_world.specs.Count.{CountMoves};
ghost use Rattle.bas_world.specs.Faults.{store_failed};
ghost use Rattle.bas_world.specs.Files.{HasFile, bytes_at, size_of};

use bas_base::FileName;
use bas_world::{Store, StoreFail};
use std::alloc::Global;

// Reads the file into the buffer until that is full or the file ends, and answers how many bytes
// were read.
fn fill<S: Store>(store: &mut S, name: FileName, buffer: &mut [u8]) -> Result<usize, StoreFail>
    requires short { length name ≤ S.longest store.old }
    requires there { IfSome (S.files store.old) (λ files. HasFile files name) }
    ensures within { IfOk result (λ count. count ≤ length buffer.old) }
    ensures bytes { IfOk result (λ count. IfSome (S.files store.old) (λ files. length buffer.old ≡ length (bytes_at files name) → take count buffer.new ≡ bytes_at files name)) }
    ensures unchanged { S.files store.new ≡ S.files store.old }
    ensures counted { CountMoves (store_failed result) (S.faults store.old) (S.faults store.new) }
    ensures longest { S.longest store.new ≡ S.longest store.old }
{
    let mut filled = 0;
    while filled < buffer.len() {
        let count = store.read_at(name, filled as u64, &mut buffer[filled..])?;
        if count == 0 {
            break;
        }
        filled += count;
    }
    Ok(filled)
}

/// The bytes of a file of that size.
pub fn read_file<S: Store>(
    alloc: Global,
    store: &mut S,
    name: FileName,
    size: usize,
) -> Result<Vec<u8>, StoreFail>
    requires short { length name ≤ S.longest store.old }
    requires size { IfSome (S.files store.old) (λ files. size_of files name ≡ Some size) }
    ensures within { IfOk result (λ bytes. length bytes.items ≤ size) }
    ensures bytes { IfOk result (λ bytes. IfSome (S.files store.old) (λ files. bytes.items ≡ bytes_at files name)) }
    ensures unchanged { S.files store.new ≡ S.files store.old }
    ensures counted { CountMoves (store_failed result) (S.faults store.old) (S.faults store.new) }
    ensures longest { S.longest store.new ≡ S.longest store.old }
{
    let mut bytes = vec![in alloc; 0; size].map_err(|_| StoreFail::Memory)?;
    let count = fill(store, name, bytes.as_mut_slice())?;
    bytes.truncate(count);
    Ok(bytes)
}
