//! The files of a folder, found and read.
ghost use Rattle.std.specs.Prelude.{◌≡◌, IfOk, IfSome};
ghost use Rattle.bal_io.specs.Content.{CanOpen};
ghost use Rattle.bal_io.specs.Faults.{CountsFaults};
ghost use Rattle.folder_files.specs.Files.{IsFrontOf, names};
ghost use Rattle.package_files.specs.Listings.{IsListing};

use bal_base::{Failed, MOST_FILE_BYTES, Stop};
use bal_io::Folder;
use package_files::Listing;
use std::alloc::Global;

/// The source files of the folder, by their names, and its manifest. `Failed` is answered exactly where a call on the folder failed. Its
/// cost grows with the number of files.
pub fn list<F: Folder>(alloc: Global, folder: &mut F) -> Result<Listing, Stop<Failed>>
    ensures faults { CountsFaults (F.faults folder.old) (F.faults folder.new) result }
    ensures unchanged { F.files folder.new ≡ F.files folder.old }
    ensures listed { IfOk result (λ listing. IfSome (F.files folder.old) (λ files. IsListing (names files) listing)) }
{
    let mut listing = Listing::new(alloc);
    for number in 0..folder.count(alloc)? {
        let name = folder.name(alloc, number)?;
        listing.add(alloc, name, number)?;
    }
    Ok(listing)
}

/// The bytes of the file with this number, as far as one byte more than a file may have.
pub fn front<F: Folder>(alloc: Global, folder: &mut F, number: u32) -> Result<Vec<u8>, Stop<Failed>>
    requires { CanOpen (F.files folder.old) number }
    ensures faults { CountsFaults (F.faults folder.old) (F.faults folder.new) result }
    ensures unchanged { F.files folder.new ≡ F.files folder.old }
    ensures front { IfOk result (λ front. IfSome (F.files folder.old) (λ files. IsFrontOf files number front.items)) }
{
    let front = folder.read(alloc, number, MOST_FILE_BYTES as u64)?;
    Ok(front)
}
