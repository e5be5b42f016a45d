//! Manifests, read.
ghost use Rattle.std.specs.Prelude.{◌≡◌, ◌≤◌, IfOk, IfSome, IfNone, IsSome, IsUtf8, Some, None, length, option_map, chars, codes};
ghost use Rattle.bal_base.specs.Stops.{IfFault};
ghost use Rattle.toml.specs.Data.{as_str};
ghost use Rattle.toml.specs.Parse.{parse_document};
ghost use Rattle.toml.specs.View.{table_view, view};
ghost use Rattle.manifests.specs.Manifests.{IsBad, IsDocument, IsNoDocument, Says, bad_manifest, manifest_of as told_by, name_if_dotted, name_of, no_manifest, org_of, package_entry};

use crate::names::is_name;
use bal_base::{Fault, FaultCode, Kept, MOST_FILE_BYTES, Memory, Name, Stop};
use std::alloc::Global;
use toml::{Table, Value};

/// What a manifest says of its package.
#[derive(Drop)]
pub struct Manifest {
    /// The package's name: identifiers joined by dots.
    pub name: Name,
    /// Its organisation, where one is named.
    pub org: Option<Name>,
}

impl Manifest {
    /// What is so of a package without a manifest: its name is `main`, and it has no organisation.
    pub fn without_file(alloc: Global) -> Result<Manifest, Memory>
        ensures { IfOk result (λ m. m ≡ no_manifest) }
    {
        Ok(Manifest {
            name: Name::new(alloc, "main")?,
            org: None,
        })
    }
}

/// What a manifest with these bytes says: the string `package.name`, or `main` where there is none, and the string `package.org`.
/// The bytes may be those of a front that is longer than a file may be.
///
/// `BadManifest` is answered, without a place, where there are more bytes than a file may have, where they are no TOML document, and
/// where `package.name` is there and is no string of identifiers joined by dots.
pub fn read_manifest(alloc: Global, bytes: &[u8]) -> Result<Manifest, Stop<Fault>>
    ensures says { IfOk result (λ m. Says bytes.now m) }
    ensures bad { IfFault result (λ f. (f ≡ bad_manifest) × IsBad bytes.now) }
{
    match document(alloc, bytes) {
        Ok(Some(table)) => answer(manifest_of(alloc, &table)),
        Ok(None) => Err(Stop::Fault(bad())),
        Err(Memory) => Err(Stop::Memory),
    }
}

/// The answer by what a document says.
fn answer(told: Result<Option<Manifest>, Memory>) -> Result<Manifest, Stop<Fault>>
    ensures told { IfOk result (λ m. told ≡ Ok (Some m)) }
    ensures bad { IfFault result (λ f. (f ≡ bad_manifest) × (told ≡ Ok None)) }
{
    match told {
        Ok(Some(manifest)) => Ok(manifest),
        Ok(None) => Err(Stop::Fault(bad())),
        Err(Memory) => Err(Stop::Memory),
    }
}

fn bad() -> Fault
    ensures { result ≡ bad_manifest }
{
    Fault {
        code: FaultCode::BadManifest,
        at: None,
        kept: Kept::Nothing,
    }
}

/// The document that the bytes are, if they are one.
fn document(alloc: Global, bytes: &[u8]) -> Result<Option<Table>, Memory>
    ensures there { IfOk result (λ found. IfSome found (λ t. IsDocument bytes.now (table_view t))) }
    ensures none { IfOk result (λ found. IfNone found (IsNoDocument bytes.now)) }
{
    if bytes.len() > MOST_FILE_BYTES {
        return Ok(None);
    }
    match str::from_utf8(bytes) {
        Ok(text) => table_of(alloc, text),
        Err(_) => Ok(None),
    }
}

/// The table that the text is, if it is one.
fn table_of(alloc: Global, text: &str) -> Result<Option<Table>, Memory>
    ensures { IfOk result (λ found. parse_document text.now ≡ option_map (λ t. table_view t) found) }
{
    match toml::table_from_str(alloc, text) {
        Ok(table) => Ok(Some(table)),
        Err(error) => {
            if error.is_memory() {
                return Err(Memory);
            }
            Ok(None)
        }
    }
}

/// What the document says, unless its name is none.
fn manifest_of(alloc: Global, table: &Table) -> Result<Option<Manifest>, Memory>
    ensures { IfOk result (λ m. m ≡ told_by (table_view table.now)) }
{
    match name(alloc, entry(table, "name"))? {
        Some(name) => Ok(Some(Manifest {
            name,
            org: organisation(alloc, entry(table, "org"))?,
        })),
        None => Ok(None),
    }
}

/// What stands at the key in the table `package`.
fn entry<'a>(table: &'a Table, key: &str) -> Option<&'a Value>
    ensures { option_map (λ v. view v.now) result ≡ package_entry key.now (table_view table.now) }
{
    match table.get("package") {
        Some(package) => package.get(key),
        None => None,
    }
}

/// The name that an entry gives.
fn name(alloc: Global, found: Option<&Value>) -> Result<Option<Name>, Memory>
    ensures { IfOk result (λ name. name ≡ name_of (option_map (λ v. view v.now) found.entry)) }
{
    match found {
        Some(value) => name_in(alloc, value),
        None => Ok(Some(Name::new(alloc, "main")?)),
    }
}

fn name_in(alloc: Global, value: &Value) -> Result<Option<Name>, Memory>
    ensures { IfOk result (λ name. name ≡ name_of (Some (view value.now))) }
{
    match value.as_str() {
        Some(text) => dotted(alloc, text),
        None => Ok(None),
    }
}

/// The text as a name, if it is one.
fn dotted(alloc: Global, text: &str) -> Result<Option<Name>, Memory>
    ensures { IfOk result (λ name. name ≡ name_if_dotted (chars text.now)) }
{
    if !is_name(alloc, text)? {
        return Ok(None);
    }
    Ok(Some(Name::new(alloc, text)?))
}

/// The organisation that an entry gives.
fn organisation(alloc: Global, found: Option<&Value>) -> Result<Option<Name>, Memory>
    ensures { IfOk result (λ name. name ≡ org_of (option_map (λ v. view v.now) found.entry)) }
{
    match found {
        Some(value) => organisation_in(alloc, value),
        None => Ok(None),
    }
}

fn organisation_in(alloc: Global, value: &Value) -> Result<Option<Name>, Memory>
    ensures { IfOk result (λ name. name ≡ org_of (Some (view value.now))) }
{
    match value.as_str() {
        Some(text) => Ok(Some(Name::new(alloc, text)?)),
        None => Ok(None),
    }
}
