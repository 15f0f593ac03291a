//! Worked sources: some have types, and some have no typing.

ghost use Rattle.hm_typing.specs.Assumptions.{empty};
ghost use Rattle.hm_types.specs.Types.{Var};
ghost use Rattle.hm_typing.specs.Patterns.{list};
ghost use Rattle.hm_typing.specs.Schemes.{arrow, closed};
ghost use Rattle.hm_typing.specs.Sources.{
  HasNoSchemes,
  HasNoType,
  HasNoTypesAsOneGroup,
  IsTyped,
  IsTypedWith,
  anything,
  case_of_text,
  char,
  escaping_signature,
  f,
  first_binding,
  g,
  guarded_clause,
  guarded_pattern,
  h,
  identity,
  int,
  letter_as_guard,
  matched_constructors,
  misuse,
  mutual_recursion,
  nameless_faults,
  narrow_signature,
  nested_type,
  pair_type,
  partly_polymorphic,
  partly_type,
  pattern_fault,
  pattern_generalises,
  pattern_is_one_unit,
  polymorphic_lambda,
  polymorphic_let,
  polymorphic_recursion,
  s,
  second_binding,
  self_application,
  some_faults,
  t,
  through_signature,
  too_general_signature,
  typed_body,
  unsigned_recursion,
  with_as_type_of,
  with_const,
  with_narrow,
  with_not,
  with_otherwise,
  with_undefined,
  x,
  y,
  z,
};
ghost use Rattle.hm_typing.specs.Syntax.{bool};
ghost use Rattle.hm_typing.specs.Verdicts.{AreTypeFaults};
ghost use Rattle.std.specs.Prelude.{[], ◌∷◌};

/// Sources with types, each with a scheme that is at most as general as that of one of its names.
pub fn sources_with_types()
    ensures polymorphic_let { IsTyped empty polymorphic_let (pair_type int char) }
    ensures narrow_signature { IsTypedWith empty narrow_signature g (closed (arrow int int)) }
    ensures through_signature { IsTypedWith with_const through_signature f (closed identity) }
    ensures mutual_recursion_first { IsTypedWith empty mutual_recursion f (closed anything) }
    ensures mutual_recursion_second { IsTypedWith empty mutual_recursion g (closed anything) }
    ensures partly_polymorphic { IsTypedWith empty partly_polymorphic f (closed partly_type) }
    ensures typed_body { IsTyped empty typed_body (arrow int int) }
    ensures case_of_text { IsTyped empty case_of_text char }
    ensures guarded_clause { IsTypedWith with_otherwise guarded_clause f (closed (arrow bool int)) }
    ensures polymorphic_recursion { IsTypedWith empty polymorphic_recursion f (closed nested_type) }
    ensures pattern_generalises { IsTypedWith empty pattern_generalises h (closed (pair_type int char)) }
    ensures matched_constructors_first { IsTypedWith with_undefined matched_constructors x (closed char) }
    ensures matched_constructors_rest { IsTypedWith with_undefined matched_constructors y (closed (list char)) }
    ensures matched_constructors_any { IsTypedWith with_undefined matched_constructors z (closed (Var 0)) }
    ensures guarded_pattern_first { IsTypedWith empty guarded_pattern x (closed int) }
    ensures guarded_pattern_second { IsTypedWith empty guarded_pattern y (closed bool) }
{}

/// Sources without a typing. A lambda's variable isn't generalised. No type contains itself. A signature isn't more general than its binding,
/// its variables don't escape, and its scheme is the one in use. The names of a pattern binding are one unit, in which none is generalised,
/// and its guards have the type Bool.
pub fn sources_without_types()
    ensures lambda_is_monomorphic { HasNoType empty polymorphic_lambda }
    ensures no_infinite_type { HasNoSchemes empty self_application }
    ensures signature_too_general { HasNoSchemes empty too_general_signature }
    ensures signature_escapes { HasNoSchemes with_as_type_of escaping_signature }
    ensures signature_is_used { HasNoType with_narrow misuse }
    ensures not_one_group { HasNoTypesAsOneGroup with_const through_signature }
    ensures recursion_is_monomorphic { HasNoSchemes empty unsigned_recursion }
    ensures pattern_is_one_unit { HasNoSchemes empty pattern_is_one_unit }
    ensures letter_as_guard { HasNoSchemes empty letter_as_guard }
{}

/// Sources with type faults. In `f x = x x ; g = f 1 ; s :: Int ; s = 'c' ; t = not s` they are exactly `f`, `s` and `t`: `g` depends on `f`, and
/// `t` sees the declared scheme of `s`. In `(f, g) = (\x -> x, f 1) ; h = f 'c'` it is `h`. In `(f, g) = (not 1, 1) ; h = not g` it is only
/// the unit of the pattern. In `3 = 'c' ; _ = not 1` both bindings are faults, each in its own unit.
pub fn sources_with_faults()
    ensures some_faults { AreTypeFaults with_not some_faults (f ∷ s ∷ t ∷ []) }
    ensures pattern_is_one_unit { AreTypeFaults empty pattern_is_one_unit (h ∷ []) }
    ensures pattern_fault { AreTypeFaults with_not pattern_fault (f ∷ []) }
    ensures nameless_faults { AreTypeFaults with_not nameless_faults (first_binding ∷ second_binding ∷ []) }
{}
