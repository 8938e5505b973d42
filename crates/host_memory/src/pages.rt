//! The pages of a memory, in a table of two levels.

ghost use Rattle.std.specs.Prelude.{◌≡◌, ◌≢◌, ℕ, ◌+◌, ◌≤◌, length, map, option_copied, option_map, replicate, IfOk, IfSome, IsSome, IsSomeAnd, OnErr, OnOk};
ghost use Rattle.host_memory.specs.Pages.{KeepsPages, KeepsPlaces, bytes_by_group, bytes_by_place, page_at, page_bytes, page_with_bytes};

use std::alloc::{AllocError, Global};

/// One page.
pub type Page = Box<[u8; 512]>;

type Group = Vec<Option<Page>>;

// How many pages a group has at most.
const GROUP_PAGES: u64 = 512;

/// The pages that are there, by their numbers. The first [`GROUP_PAGES`] numbers are of the first group, and so on.
/// There are only this many groups, and in a group only this many places, as the pages that were put there needed.
#[derive(Drop)]
pub struct Pages {
    groups: Vec<Group>,
    alloc: Global,
}

impl Pages {
    /// No page. It takes no memory.
    pub fn new(alloc: Global) -> Pages
        ensures { (number : ℕ) → page_at result.groups.items number ≡ None }
    {
        Pages {
            groups: Vec::new(alloc),
            alloc,
        }
    }

    /// Returns the same pages, each with the same bytes. Returns an error if memory runs out.
    pub fn copy_of(&self, alloc: Global) -> Result<Pages, AllocError>
        ensures { IfOk result (λ copy. bytes_by_group copy.groups.items ≡ bytes_by_group self.now.groups.items) }
    {
        let mut groups = Vec::with_capacity(alloc, self.groups.len())?;
        for group in &self.groups {
            let copied = copy_of_group(group, alloc)?;
            groups.push_reserved(copied);
        }
        Ok(Pages { groups, alloc })
    }

    /// Returns the page of this number, if it is there.
    #[inline]
    pub fn get(&self, number: u64) -> Option<&Page>
        ensures { option_copied result ≡ page_at self.now.groups.items number }
    {
        let group = self.groups.get((number / GROUP_PAGES) as usize)?;
        group.get((number % GROUP_PAGES) as usize)?.as_ref()
    }

    /// Writes bytes to a page that is there, from a place of it on.
    #[inline]
    pub fn write(&mut self, number: u64, start: usize, bytes: &[u8])
        requires there { IsSome (page_at self.old.groups.items number) }
        requires fits { start + length bytes.now ≤ 512 }
        ensures page { page_at self.new.groups.items number ≡ option_map (page_with_bytes start bytes.now) (page_at self.old.groups.items number) }
        ensures others { (other : ℕ) → other ≢ number → page_at self.new.groups.items other ≡ page_at self.old.groups.items other }
        ensures whole { IfSome (page_at self.old.groups.items number) (λ page. length page.value ≡ 512) }
    {
        let group = &mut self.groups[(number / GROUP_PAGES) as usize];
        if let Some(page) = &mut group[(number % GROUP_PAGES) as usize] {
            page[start..start + bytes.len()].copy_from_slice(bytes);
        }
    }

    /// Puts a page of zeros there, in place of any that was. Running out of memory leaves all pages as they were.
    pub fn put_zeros(&mut self, number: u64) -> Result<(), AllocError>
        ensures ok { OnOk result (IsSomeAnd (page_at self.new.groups.items number) (λ page. page.value ≡ replicate 512 0)) }
        ensures others { (other : ℕ) → other ≢ number → page_at self.new.groups.items other ≡ page_at self.old.groups.items other }
        ensures err { OnErr result (KeepsPages self.old.groups.items self.new.groups.items) }
    {
        let zeros = Box::new(self.alloc, [0u8; 512])?;
        let row = (number / GROUP_PAGES) as usize;
        let place = (number % GROUP_PAGES) as usize;
        make_groups(self.alloc, &mut self.groups, row + 1)?;
        let group = &mut self.groups[row];
        make_places(group, place + 1)?;
        group[place] = Some(zeros);
        Ok(())
    }
}

// Makes this many groups at least.
fn make_groups(alloc: Global, groups: &mut Vec<Group>, count: usize) -> Result<(), AllocError>
    ensures pages { KeepsPages groups.old.items groups.new.items }
    ensures ok { OnOk result (count ≤ length groups.new.items) }
{
    groups.reserve(count.saturating_sub(groups.len()))?;
    while groups.len() < count {
        groups.push_reserved(Vec::new(alloc));
    }
    Ok(())
}

// Makes this many places at least in a group.
fn make_places(group: &mut Group, count: usize) -> Result<(), AllocError>
    ensures pages { KeepsPlaces group.old.items group.new.items }
    ensures ok { OnOk result (count ≤ length group.new.items) }
{
    group.reserve(count.saturating_sub(group.len()))?;
    while group.len() < count {
        group.push_reserved(None);
    }
    Ok(())
}

// Returns a group with the same pages at its places.
fn copy_of_group(group: &Group, alloc: Global) -> Result<Group, AllocError>
    ensures { IfOk result (λ copy. bytes_by_place copy ≡ bytes_by_place group.now) }
{
    let mut places = Vec::with_capacity(alloc, group.len())?;
    for page in group {
        let copied = copy_of_page(page, alloc)?;
        places.push_reserved(copied);
    }
    Ok(places)
}

// Returns a page with the same bytes, if there is one.
fn copy_of_page(page: &Option<Page>, alloc: Global) -> Result<Option<Page>, AllocError>
    ensures { IfOk result (λ copy. page_bytes copy ≡ page_bytes page.now) }
{
    match page {
        Some(page) => Ok(Some(Box::new(alloc, **page)?)),
        None => Ok(None),
    }
}
