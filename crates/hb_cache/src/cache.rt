//! The checks of a script, by key.

ghost use Rattle.std.specs.Prelude.{◌≡◌, ℕ, ◌<◌, ◌≤◌, ◌==◌, true, vec_len, vec_capacity, if◌then◌else◌, [], Some, None, option_copied, IfOk, OnOk, OnErr};
ghost use Rattle.hb_cache.specs.declared.kept.Kept.{Kept};
ghost use Rattle.hb_cache.specs.Cache.{SameItems, with_item, without_item, without_key_used};
ghost use Rattle.hb_cache.specs.Held.{has, KeepHad, IsKnown, KeepKnown, AreKnown, IsCache};
ghost use Rattle.hb_cache.specs.Kept.{item_of, items_in, kept_at, not_using, of_body, width_of};

use crate::kept::Kept;
use hb_types::ids::{BodySite, KeyId};
use std::alloc::{AllocError, Global};
use std::marker::Model;

/// At most one check for each key. Contracts see what is kept, by key.
#[derive(Drop)]
pub struct Cache {
    kept: Vec<Option<Kept>>,
    /// By key, those whose kept check may have used the key's type.
    users: Vec<Vec<KeyId>>,
    /// Empty lists of calls that ended, for the keys of the next ones.
    spare: Vec<Vec<KeyId>>,
}

impl Model for Cache {
    ghost use Rattle.std.specs.Prelude.{List, Option};
    ghost use Rattle.hb_cache.specs.declared.kept.Kept.{Kept};
    ghost use Rattle.hb_cache.specs.Held.{IsCache};

    ghost Value = { List (Option Kept) };

    ghost view = { λ c. c.kept.items };

    ghost invariant = { λ c. IsCache c.kept.items c.users.items };
}

impl Cache {
    /// Nothing is kept. It takes no memory.
    pub fn new(alloc: Global) -> Cache
        ensures { result ≡ [] }
    {
        Cache {
            kept: Vec::new(alloc),
            users: Vec::new(alloc),
            spare: Vec::new(alloc),
        }
    }

    /// What is kept for a key, where it is of this body.
    #[inline]
    pub fn find(&self, key: KeyId, body: BodySite) -> Option<&Kept>
        ensures found { option_copied result ≡ of_body body.0 (kept_at self.now key.0) }
        ensures own { (kept : Kept) → option_copied result ≡ Some kept → kept.key.0 ≡ key.0 }
    {
        match kept_for(&self.kept, key) {
            Some(kept) if kept.derivation.body == body => Some(kept),
            _ => None,
        }
    }

    /// How many uses what is kept for the key has, and 0 where nothing is.
    #[inline]
    pub fn width(&self, key: KeyId) -> usize
        ensures { result ≡ width_of (kept_at self.now key.0) }
    {
        match kept_for(&self.kept, key) {
            Some(kept) => kept.counts.len(),
            None => 0,
        }
    }

    /// Keeps a check for its key, in place of what was kept there.
    pub fn put(&mut self, alloc: Global, kept: Kept) -> Result<(), AllocError>
        ensures each { OnOk result ((k : ℕ) → kept_at self.new k ≡ (if kept.key.0 == k then Some kept else kept_at self.old k)) }
        ensures items { OnOk result (SameItems (items_in self.new) (with_item kept.key.0 (item_of kept) (items_in self.old))) }
        ensures err { OnErr result (self.new ≡ self.old) }
    {
        register(alloc, &mut self.users, &kept)?;
        put_at(&mut self.kept, kept)
    }

    /// Drops each check that used the type of this key, which changed.
    pub fn drop_type(&mut self, key: KeyId)
        ensures each { (k : ℕ) → kept_at self.new k ≡ not_using key.0 (kept_at self.old k) }
        ensures items { SameItems (items_in self.new) (without_key_used key.0 (items_in self.old)) }
    {
        drop_using(&mut self.kept, &self.users, key);
        if let Some(users) = self.users.get_mut(key.0 as usize) {
            users.clear();
        }
    }

    /// Drops what is kept for this key, whose definition changed.
    pub fn drop_def(&mut self, key: KeyId)
        ensures each { (k : ℕ) → kept_at self.new k ≡ (if key.0 == k then None else kept_at self.old k) }
        ensures items { SameItems (items_in self.new) (without_item key.0 (items_in self.old)) }
    {
        forget(&mut self.kept, key);
    }

    /// An empty list with room for so many keys: one that was given back, where it has the room, or a new one.
    #[inline(always)]
    pub fn lend(&mut self, alloc: Global, count: usize) -> Result<Vec<KeyId>, AllocError>
        ensures kept { self.new ≡ self.old }
        ensures empty { IfOk result (λ list. list.items ≡ []) }
        ensures room { IfOk result (λ list. count ≤ vec_capacity list) }
    {
        match self.spare.pop() {
            Some(mut list) if list.capacity() >= count => {
                list.clear();
                Ok(list)
            }
            _ => Vec::with_capacity(alloc, count),
        }
    }

    /// Takes a list back, for a call to come.
    #[inline(always)]
    pub fn give_back(&mut self, list: Vec<KeyId>)
        ensures kept { self.new ≡ self.old }
    {
        let _ = self.spare.push(list);
    }
}

// What is kept for the key.
#[inline]
fn kept_for(kept: &[Option<Kept>], key: KeyId) -> Option<&Kept>
    ensures { option_copied result ≡ kept_at kept.now key.0 }
{
    kept.get(key.0 as usize)?.as_ref()
}

// Puts the check at its key, once there is a place for it.
fn put_at(all: &mut Vec<Option<Kept>>, kept: Kept) -> Result<(), AllocError>
    ensures each { OnOk result ((k : ℕ) → kept_at all.new.items k ≡ (if kept.key.0 == k then Some kept else kept_at all.old.items k)) }
    ensures err { OnErr result (all.new.items ≡ all.old.items) }
{
    let key = kept.key;
    make_place(all, key)?;
    all[key.0 as usize] = Some(kept);
    Ok(())
}

// There is a place for the key.
fn make_place(all: &mut Vec<Option<Kept>>, key: KeyId) -> Result<(), AllocError>
    ensures each { (k : ℕ) → kept_at all.new.items k ≡ kept_at all.old.items k }
    ensures ok { OnOk result (key.0 < vec_len all.new) }
    ensures err { OnErr result (all.new.items ≡ all.old.items) }
{
    let at = key.0 as usize;
    if at >= all.len() {
        all.resize_with(at + 1, || None)?;
    }
    Ok(())
}

// The check's key is known to each key that it used.
fn register(alloc: Global, users: &mut Vec<Vec<KeyId>>, kept: &Kept) -> Result<(), AllocError>
    ensures stay { KeepKnown users.old.items users.new.items }
    ensures ok { OnOk result (AreKnown users.new.items kept.now.counts.items kept.now.key.0) }
{
    for seen in &kept.counts {
        add_user(alloc, users, seen.key, kept.key)?;
    }
    Ok(())
}

// The user is known to the key that it used.
fn add_user(
    alloc: Global,
    users: &mut Vec<Vec<KeyId>>,
    used: KeyId,
    user: KeyId,
) -> Result<(), AllocError>
    ensures stay { KeepKnown users.old.items users.new.items }
    ensures ok { OnOk result (IsKnown users.new.items used.0 user.0) }
{
    make_list(alloc, users, used)?;
    let list = &mut users[used.0 as usize];
    add_key(list, user)
}

// There is a list for the key.
fn make_list(alloc: Global, users: &mut Vec<Vec<KeyId>>, used: KeyId) -> Result<(), AllocError>
    ensures stay { KeepKnown users.old.items users.new.items }
    ensures ok { OnOk result (used.0 < vec_len users.new) }
{
    let at = used.0 as usize;
    if at >= users.len() {
        users.resize_with(at + 1, || Vec::new(alloc))?;
    }
    Ok(())
}

// The key stands in the list.
fn add_key(list: &mut Vec<KeyId>, key: KeyId) -> Result<(), AllocError>
    ensures stay { KeepHad list.old.items list.new.items }
    ensures ok { OnOk result (has list.new.items key.0 ≡ true) }
{
    if !list.contains(&key) {
        list.push(key)?;
    }
    Ok(())
}

// Drops each check that used the key.
fn drop_using(kept: &mut [Option<Kept>], users: &[Vec<KeyId>], key: KeyId)
    requires { IsCache kept.old users.now }
    ensures { (k : ℕ) → kept_at kept.new k ≡ not_using key.0 (kept_at kept.old k) }
{
    if let Some(users) = users.get(key.0 as usize) {
        drop_users(kept, users, key);
    }
    forget(kept, key);
}

// Drops the checks of these keys that used the key.
fn drop_users(kept: &mut [Option<Kept>], users: &[KeyId], key: KeyId)
    ensures { (k : ℕ) → kept_at kept.new k ≡ (if has users.now k then not_using key.0 (kept_at kept.old k) else kept_at kept.old k) }
{
    for user in users {
        drop_user(kept, *user, key);
    }
}

// Drops the check of the user where it used the key.
fn drop_user(kept: &mut [Option<Kept>], user: KeyId, key: KeyId)
    ensures { (k : ℕ) → kept_at kept.new k ≡ (if user.0 == k then not_using key.0 (kept_at kept.old k) else kept_at kept.old k) }
{
    let used = match kept_for(kept, user) {
        Some(kept) => kept.uses(key),
        None => false,
    };
    if used {
        forget(kept, user);
    }
}

// Drops what is kept for the key.
fn forget(kept: &mut [Option<Kept>], key: KeyId)
    ensures { (k : ℕ) → kept_at kept.new k ≡ (if key.0 == k then None else kept_at kept.old k) }
{
    let at = key.0 as usize;
    if at < kept.len() {
        kept[at] = None;
    }
}
