//! What is true of the checks that are kept, when types and definitions change.

ghost use Rattle.std.specs.Prelude.{◌≡◌, ℕ, Option, Some};
ghost use Rattle.hb_types.specs.declared.ids.BodySite.{BodySite};
ghost use Rattle.hb_cache.specs.Cache.{Item, Items, with_item, without_item, without_key_used, Agrees, SaysSame, SameItems, SameBut};

/// An item that stays agrees as before when the type of one key changed, or one definition.
pub fn what_stays_agrees()
    ensures types { (items : Items) (key changed : ℕ) (item : Item) → without_key_used changed items key ≡ Some item
        → (definitions : ℕ → Option BodySite) (before after : ℕ → ℕ) → SameBut changed before after
        → Agrees key item definitions before → Agrees key item definitions after }
    ensures definitions { (items : Items) (key changed : ℕ) (item : Item) → without_item changed items key ≡ Some item
        → (before after : ℕ → Option BodySite) (changes : ℕ → ℕ) → SameBut changed before after
        → Agrees key item before changes → Agrees key item after changes }
{}

/// Items that say the same agree with the same tables.
pub fn same_items_agree()
    ensures { (key : ℕ) (item other : Item) (definitions : ℕ → Option BodySite) (changes : ℕ → ℕ) → SaysSame item other
        → Agrees key item definitions changes → Agrees key other definitions changes }
{}

/// That two maps say the same is an equivalence.
pub fn saying_the_same_is_an_equivalence()
    ensures itself { (items : Items) → SameItems items items }
    ensures back { (items others : Items) → SameItems items others → SameItems others items }
    ensures on { (items others more : Items) → SameItems items others → SameItems others more → SameItems items more }
{}

/// Maps that say the same do so after the same step.
pub fn steps_respect_what_is_said()
    ensures with { (key : ℕ) (item other : Item) (items others : Items) → SaysSame item other → SameItems items others
        → SameItems (with_item key item items) (with_item key other others) }
    ensures without { (key : ℕ) (items others : Items) → SameItems items others → SameItems (without_item key items) (without_item key others) }
    ensures unused { (key : ℕ) (items others : Items) → SameItems items others → SameItems (without_key_used key items) (without_key_used key others) }
{}
