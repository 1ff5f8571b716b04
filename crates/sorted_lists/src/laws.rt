//! The laws of lists in an order R: each is the contract of a function that does nothing.

ghost use Rattle.std.specs.Prelude.{◌≡◌, ◌+◌, ◌||◌, ◌&&◌, true, Bool, List, ◌++◌, length, map};
ghost use Rattle.std.specs.Cmp.{IsTotalOrder};
ghost use Rattle.std.specs.FinMap.{IsAntisymmetric};
ghost use Rattle.std.specs.List.{filter, flat_map, list_any};
ghost use Rattle.std.specs.List.Sorted.{IsSorted, IsStable};
ghost use Rattle.std.specs.declared.cmp.Ordering.{Ordering};
ghost use Rattle.sorted_lists.specs.SortedLists.{insert_sorted, sort_of, without_one, with_all, without_all, each_once};

/// Law of exchange: under a total order that calls only the same elements equal, it doesn't matter what is put in first.
pub fn insertions_commute<T>()
    ensures one { (R : T → T → Ordering) → IsTotalOrder R → IsAntisymmetric R → (x y : T) (zs : List T)
        → insert_sorted R x (insert_sorted R y zs) ≡ insert_sorted R y (insert_sorted R x zs) }
    ensures many { (R : T → T → Ordering) → IsTotalOrder R → IsAntisymmetric R → (more less zs : List T)
        → with_all R more (with_all R less zs) ≡ with_all R less (with_all R more zs) }
    ensures sorts { (R : T → T → Ordering) → IsTotalOrder R → IsAntisymmetric R → (xs ys : List T)
        → sort_of R (xs ++ ys) ≡ sort_of R (ys ++ xs) }
{}

/// Law of removal: what was put in comes out again and leaves the list as it was.
pub fn removal_undoes_insertion<T>()
    ensures one { (R : T → T → Ordering) → IsTotalOrder R → IsAntisymmetric R → (x : T) (ys : List T)
        → without_one R x (insert_sorted R x ys) ≡ ys }
    ensures many { (R : T → T → Ordering) → IsTotalOrder R → IsAntisymmetric R → (more ys : List T)
        → without_all R more (with_all R more ys) ≡ ys }
{}

/// Law of order: a sort is in order and as long as the list, a list in order is its own sort, and changes keep the order.
pub fn sorts_are_in_order<T>()
    ensures sort { (R : T → T → Ordering) → IsTotalOrder R → (xs : List T) → IsSorted R (sort_of R xs) }
    ensures length { (R : T → T → Ordering) (xs : List T) → length (sort_of R xs) ≡ length xs }
    ensures itself { (R : T → T → Ordering) → IsTotalOrder R → (xs : List T) → IsSorted R xs → sort_of R xs ≡ xs }
    ensures put { (R : T → T → Ordering) → IsTotalOrder R → (x : T) (xs : List T)
        → IsSorted R xs → IsSorted R (insert_sorted R x xs) }
    ensures taken { (R : T → T → Ordering) → IsTotalOrder R → (x : T) (xs : List T)
        → IsSorted R xs → IsSorted R (without_one R x xs) }
{}

/// Law of stability: what is in order and keeps elements that tie as they stood is the sort; elements may tie that aren't the
/// same.
pub fn a_stable_sort_is_the_sort<T>()
    ensures { (R : T → T → Ordering) → IsTotalOrder R → (xs ys : List T)
        → IsSorted R ys → IsStable R xs ys → ys ≡ sort_of R xs }
{}

/// Law of filters: to sort what passes a test is to keep what passes of the sort.
pub fn filters_and_sorts_commute<T>()
    ensures { (R : T → T → Ordering) → IsTotalOrder R → (test : T → Bool) (xs : List T)
        → filter test (sort_of R xs) ≡ sort_of R (filter test xs) }
{}

/// Law of repeats: none is left, and they can be left out before the list is put in order, or after.
pub fn each_once_leaves_no_repeat<T>()
    ensures none { (R : T → T → Ordering) → IsAntisymmetric R → (xs : List T) → each_once R (each_once R xs) ≡ each_once R xs }
    ensures sorts { (R : T → T → Ordering) → IsTotalOrder R → (xs : List T)
        → each_once R (sort_of R xs) ≡ sort_of R (each_once R xs) }
{}

/// Law of members: whether some member is so, where the list is made of others.
pub fn some_member_is_so<T, U>()
    ensures mapped { (f : T → U) (so : U → Bool) (xs : List T) → list_any so (map f xs) ≡ list_any (λ x. so (f x)) xs }
    ensures flattened { (f : T → List U) (so : U → Bool) (xs : List T)
        → list_any so (flat_map f xs) ≡ list_any (λ x. list_any so (f x)) xs }
    ensures filtered { (keep so : T → Bool) (xs : List T) → list_any so (filter keep xs) ≡ list_any (λ x. keep x && so x) xs }
    ensures joined { (so : T → Bool) (xs ys : List T) → list_any so (xs ++ ys) ≡ (list_any so xs || list_any so ys) }
    ensures sorted { (R : T → T → Ordering) (so : T → Bool) (xs : List T) → list_any so (sort_of R xs) ≡ list_any so xs }
    ensures once { (R : T → T → Ordering) → IsAntisymmetric R → (so : T → Bool) (xs : List T)
        → list_any so (each_once R xs) ≡ list_any so xs }
    ensures implied { (so other : T → Bool) → ((x : T) → so x ≡ true → other x ≡ true) → (xs : List T)
        → list_any so xs ≡ true → list_any other xs ≡ true }
{}
