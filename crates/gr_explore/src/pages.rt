//! Pages: the bytes of each goroutine, or of each channel, as they were written last.

ghost use Rattle.std.specs.Prelude.{◌≡◌, ◌++◌, IfOk, OnOk};
ghost use Rattle.gr_step.specs.Stores.{contents_at};
ghost use Rattle.gr_explore.specs.Keeping.{AreRenewed, IsGrown, IsRenewed, has_name, names_of, with_name, with_names};

use gr_base::NoMemory;
use gr_step::Store;
use std::alloc::Global;
use std::mem;

/// A name by which a store has something that is written as bytes.
pub(crate) trait Paged: Sized + PartialEq + Drop {
    ghost use Rattle.std.specs.Prelude.{◌≡◌, ◌++◌, List, ℕ, IfOk, OnOk};
    ghost use Rattle.gr_refine.specs.Contents.{Contents};
    ghost use Rattle.gr_step.specs.Stores.{contents_at};

    // Its code: nothing where nothing has the name.
    ghost code: { Contents → Self → List ℕ };

    /// A copy of the name.
    fn copy_name(&self, alloc: Global) -> Result<Self, NoMemory>
        ensures { IfOk result (λ name. name ≡ self.now) };

    /// Appends the code. Refused, some of it may be there.
    fn write_code(&self, store: &Store, bytes: &mut Vec<u8>) -> Result<(), NoMemory>
        ensures { OnOk result (bytes.new.items ≡ bytes.old.items ++ code (contents_at store.now) self.now) };
}

/// A name, and the code of what had it.
#[derive(Drop)]
pub(crate) struct Page<N> {
    pub(crate) name: N,
    pub(crate) bytes: Vec<u8>,
}

/// Pages, and the names of what has changed since they were written. Pages stay in the order in which they came, and none is
/// taken out.
#[derive(Drop)]
pub(crate) struct Pages<N> {
    pub(crate) written: Vec<Page<N>>,
    pub(crate) changed: Vec<N>,
}

/// Whether one of the pages has the name.
fn has_page<N: Paged>(pages: &[Page<N>], name: &N) -> bool
    ensures { result ≡ has_name N.eq name.now (names_of pages.now) }
{
    for page in pages {
        if page.name == *name {
            return true;
        }
    }
    false
}

/// The page of what has the name.
fn page_of<N: Paged>(alloc: Global, store: &Store, name: &N) -> Result<Page<N>, NoMemory>
    ensures name { IfOk result (λ page. page.name ≡ name.now) }
    ensures code { IfOk result (λ page. page.bytes.items ≡ N.code (contents_at store.now) name.now) }
{
    let mut bytes = Vec::new(alloc);
    name.write_code(store, &mut bytes)?;
    Ok(Page {
        name: name.copy_name(alloc)?,
        bytes,
    })
}

/// The page written anew, in the memory that it has.
fn write_anew<N: Paged>(store: &Store, page: Page<N>) -> Result<Page<N>, NoMemory>
    ensures name { IfOk result (λ new. new.name ≡ page.name) }
    ensures code { IfOk result (λ new. new.bytes.items ≡ N.code (contents_at store.now) page.name) }
{
    let Page { name, bytes } = page;
    let mut bytes = bytes;
    bytes.clear();
    name.write_code(store, &mut bytes)?;
    Ok(Page { name, bytes })
}

/// The page, written anew where what has its name has changed.
fn renew_page<N: Paged>(store: &Store, page: Page<N>, changed: &[N]) -> Result<Page<N>, NoMemory>
    ensures { IfOk result (IsRenewed N.eq (N.code (contents_at store.now)) changed.now page) }
{
    if changed.contains(&page.name) {
        return write_anew(store, page);
    }
    Ok(page)
}

/// The pages, written anew where something has changed.
fn renew_pages<N: Paged>(
    alloc: Global,
    store: &Store,
    pages: Vec<Page<N>>,
    changed: &[N],
) -> Result<Vec<Page<N>>, NoMemory>
    ensures { IfOk result (λ new. AreRenewed N.eq (N.code (contents_at store.now)) changed.now pages.items new.items) }
{
    let mut renewed = Vec::with_capacity(alloc, pages.len())?;
    for page in pages {
        renewed.push(renew_page(store, page, changed)?)?;
    }
    Ok(renewed)
}

/// Adds the page of what has the name, unless there is one.
fn add_page<N: Paged>(
    alloc: Global,
    store: &Store,
    pages: &mut Vec<Page<N>>,
    name: &N,
) -> Result<(), NoMemory>
    ensures names { OnOk result (names_of pages.new.items ≡ with_name N.eq name.now (names_of pages.old.items)) }
    ensures grown { OnOk result (IsGrown (N.code (contents_at store.now)) pages.old.items pages.new.items) }
{
    if has_page(pages, name) {
        return Ok(());
    }
    pages.push(page_of(alloc, store, name)?)?;
    Ok(())
}

/// Adds a page for each of the names that has none.
fn add_pages<N: Paged>(
    alloc: Global,
    store: &Store,
    pages: &mut Vec<Page<N>>,
    names: &[N],
) -> Result<(), NoMemory>
    ensures names { OnOk result (names_of pages.new.items ≡ with_names N.eq names.now (names_of pages.old.items)) }
    ensures grown { OnOk result (IsGrown (N.code (contents_at store.now)) pages.old.items pages.new.items) }
{
    for name in names {
        add_page(alloc, store, pages, name)?;
    }
    Ok(())
}

impl<N: Paged> Pages<N> {
    ghost use Rattle.std.specs.Prelude.{◌≡◌, ◌++◌, [], OnOk};
    ghost use Rattle.gr_step.specs.Stores.{contents_at};
    ghost use Rattle.gr_explore.specs.Keeping.{AreUpdated, names_of, pages_code, with_name, with_names};

    /// No page, where the names of all that may be there are given.
    pub(crate) fn unwritten(alloc: Global, names: Vec<N>) -> Pages<N>
        ensures written { result.written.items ≡ [] }
        ensures changed { result.changed.items ≡ names.items }
    {
        Pages {
            written: Vec::new(alloc),
            changed: names,
        }
    }

    /// Notes that what has the name has changed. Refused, nothing has been noted.
    pub(crate) fn note(&mut self, alloc: Global, name: &N) -> Result<(), NoMemory>
        ensures written { self.new.written ≡ self.old.written }
        ensures changed { OnOk result (self.new.changed.items ≡ with_name N.eq name.now self.old.changed.items) }
    {
        if self.changed.contains(name) {
            return Ok(());
        }
        self.changed.push(name.copy_name(alloc)?)?;
        Ok(())
    }

    /// Brings the pages to what the store has. Refused, they may be lost.
    pub(crate) fn renew(&mut self, alloc: Global, store: &Store) -> Result<(), NoMemory>
        ensures names { OnOk result (names_of self.new.written.items
            ≡ with_names N.eq self.old.changed.items (names_of self.old.written.items)) }
        ensures pages { OnOk result (AreUpdated N.eq (N.code (contents_at store.now)) self.old.changed.items
            self.old.written.items self.new.written.items) }
        ensures none { OnOk result (self.new.changed.items ≡ []) }
    {
        let old = mem::replace(&mut self.written, Vec::new(alloc));
        let mut written = renew_pages(alloc, store, old, &self.changed)?;
        add_pages(alloc, store, &mut written, &self.changed)?;
        self.written = written;
        self.changed.clear();
        Ok(())
    }

    /// How many bytes all pages have.
    pub(crate) fn size(&self) -> usize {
        let mut size = 0usize;
        for page in &self.written {
            size = size.saturating_add(page.bytes.len());
        }
        size
    }

    /// Appends all pages.
    pub(crate) fn append(&self, bytes: &mut Vec<u8>) -> Result<(), NoMemory>
        ensures { OnOk result (bytes.new.items ≡ bytes.old.items ++ pages_code self.now.written.items) }
    {
        for page in &self.written {
            bytes.extend_from_slice(page.bytes.as_slice())?;
        }
        Ok(())
    }
}
