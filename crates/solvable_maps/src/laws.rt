//! The laws of closed forms, one function each.

ghost use Rattle.std.specs.Prelude.{◌≡◌, ◌≢◌, ◌<◌, ◌≤◌, ◌+◌, ℕ, suc, ℤ, Bool, List, [], length, map, take, drop};
ghost use Rattle.algebra.specs.In.{In};
ghost use Rattle.solvable_maps.specs.Class.{IsNext, IsClassOf, AreClasses};
ghost use Rattle.solvable_maps.specs.Dependency.{IsNonlinearCycle};
ghost use Rattle.solvable_maps.specs.Uses.{uses, strongly, IsMap};
ghost use Rattle.vectors.specs.Adding.{IsEchelonOf};
ghost use Rattle.vectors.specs.Matrices.{AreForms};
ghost use Rattle.solvable_maps.specs.Classes.{class_matrix, IsClass, IsEigenvalue};
ghost use Rattle.vectors.specs.Causes.{row_at};
ghost use Rattle.vectors.specs.Lists.{entries};
ghost use Rattle.solvable_maps.specs.Inverse.{beside, unit_list, IsInverse, IsProduct};
ghost use Rattle.solvable_maps.specs.AfterIterations.{place, rests_at, IsAfterIterations, AreAfterIterations, IsFormAfterIterations, HasRecurrence, HasValueAfter, Done, rows_done, values_done, with_polynomials, IsSplit};
ghost use Rattle.solvable_maps.specs.Made.{Made};
ghost use Rattle.solvable_maps.specs.Splits.{HasForms};
ghost use Rattle.vectors.specs.Rows.{rows_of};
ghost use Rattle.vectors.specs.Space.{combine};
ghost use Rattle.algebra.specs.Each.{Each};
ghost use Rattle.exponentials.specs.Base.{Coprime};
ghost use Rattle.exponentials.specs.Table.{IsOther, IsEqual};
ghost use Rattle.algebra.proofs.Fractions.{ℚ_field};
ghost use Rattle.algebra.specs.Fraction.{Fraction, ℚ};
ghost use Rattle.polynomials.specs.Terms.{Terms, value_at, compose, sum_of_products};
ghost use Rattle.polynomials.specs.Order.{Rank, IsMonomialOrder};
ghost use Rattle.polynomials.specs.Polynomial.{Arity, AllArity, IsPolynomial};
ghost use Rattle.ideals.specs.Members.{IsMember};
ghost use Rattle.solvable_maps.specs.Iterations.{point, back_point, values_at, iterations, width, IsNormal, IsNormalForm, IsClosedFormFrom, IsClosedForm};
ghost use Rattle.exponentials.specs.Powers.{number, negate_if};
ghost use Rattle.solvable_maps.specs.Expo.{with_normal_keys, next_images, zero_images, inverse_form_terms, one_before, at_iteration, part, power_key, other_terms, equal_terms, IsSolution};

/// The values of a closed form at -n, at the state after n iterations, are those at 0, and so are those of the form made backward at n; where it is one from 0 on, that is the state before.
pub fn closed_forms_go_back()
    ensures back { (base : List ℕ) → Coprime base
        → (images : List (Terms Fraction)) (since : ℕ) (ps : List (Terms Fraction))
        → IsClosedFormFrom base images since ps → (n : ℕ) (s : List Fraction)
        → length s ≡ length images
        → values_at ps (back_point base n (iterations images n s)) ≡ values_at ps (point base 0 s) }
    ensures inverse_form { (base : List ℕ) → Coprime base
        → (images : List (Terms Fraction)) (since : ℕ) (ps : List (Terms Fraction))
        → IsClosedFormFrom base images since ps → (n : ℕ) (s : List Fraction)
        → length s ≡ length images
        → values_at (map (inverse_form_terms (length base)) ps) (point base n
        (iterations images n s))
        ≡ values_at ps (point base 0 s) }
    ensures to_the_state { (base : List ℕ) → Coprime base → (images ps : List (Terms Fraction))
        → IsClosedForm base images ps → (n : ℕ) (s : List Fraction) → length s ≡ length images
        → values_at ps (back_point base n (iterations images n s)) ≡ s }
{}

/// At each n a closed form is what it is at 0, at the state after n iterations. Where it is the state after one number of iterations it is so from there on.
pub fn closed_forms_go_on()
    ensures start { (base : List ℕ) → Coprime base
        → (images : List (Terms Fraction)) (since : ℕ) (ps : List (Terms Fraction))
        → IsClosedFormFrom base images since ps → (n : ℕ) (s : List Fraction)
        → length s ≡ length images
        → values_at ps (point base n s) ≡ values_at ps (point base 0 (iterations images n s)) }
    ensures from { (base : List ℕ) → Coprime base
        → (images : List (Terms Fraction)) (since : ℕ) (ps : List (Terms Fraction))
        → IsClosedFormFrom base images since ps → (d : ℕ)
        → ((s : List Fraction) → length s ≡ length images
        → values_at ps (point base d s) ≡ iterations images d s)
        → IsClosedFormFrom base images d ps }
{}

/// A map has one closed form over a base, from whatever number of iterations on.
pub fn maps_have_one_closed_form()
    ensures { (base : List ℕ) → Coprime base → (O : Rank) → IsMonomialOrder O
        → (images : List (Terms Fraction)) (since other : ℕ) (ps qs : List (Terms Fraction))
        → Each (IsNormalForm base O (length images)) ps
        → Each (IsNormalForm base O (length images)) qs
        → IsClosedFormFrom base images since ps → IsClosedFormFrom base images other qs → ps ≡ qs }
{}

/// Polynomials in n, s, u, v and the variables with the same values at a state from some n on have the same values there at each n.
pub fn later_values_are_all_values()
    ensures { (base : List ℕ) → Coprime base → (m d : ℕ) (p q : Terms Fraction) (s : List Fraction)
        → length s ≡ m
        → ((n : ℕ) → value_at ℚ p (point base (d + n) s) ≡ value_at ℚ q (point base (d + n) s))
        → (n : ℕ) → value_at ℚ p (point base n s) ≡ value_at ℚ q (point base n s) }
{}

/// Normal polynomials in n, s, u, v and the variables with the same values at each n and each state are one.
pub fn values_decide_normal_forms()
    ensures { (base : List ℕ) → Coprime base → (O : Rank) → IsMonomialOrder O
        → (m : ℕ) (p q : Terms Fraction) → IsPolynomial ℚ O (width (length base) m) p
        → IsPolynomial ℚ O (width (length base) m) q → IsNormal base p → IsNormal base q
        → ((n : ℕ) (s : List Fraction) → length s ≡ m
        → value_at ℚ p (point base n s) ≡ value_at ℚ q (point base n s))
        → p ≡ q }
{}

/// Where an ideal has a normal polynomial at each n, it has the coefficients of its monomials in n, s, u and v.
pub fn ideals_have_the_parts()
    ensures { (base : List ℕ) → Coprime base
        → (m : ℕ) (gs : List (Terms Fraction)) (p : Terms Fraction) → AllArity m gs
        → Arity (width (length base) m) p → IsNormal base p
        → ((n : ℕ) → IsMember ℚ m gs (at_iteration base m n p)) → (e : List ℕ)
        → length e ≡ width (length base) m → IsMember ℚ m gs (part (length base) e p) }
{}

/// Where a normal polynomial is zero at one state at each n, so are the coefficients of its monomials in n, s, u and v.
pub fn parts_vanish_at_a_state()
    ensures { (base : List ℕ) → Coprime base → (m : ℕ) (s : List Fraction) → length s ≡ m
        → (p : Terms Fraction) → Arity (width (length base) m) p → IsNormal base p
        → ((n : ℕ) → value_at ℚ p (point base n s) ≡ ℚ.zero) → (e : List ℕ)
        → length e ≡ width (length base) m → value_at ℚ (part (length base) e p) s ≡ ℚ.zero }
{}

/// What the operations on polynomials in n, s, u, v and the variables do to their values.
pub fn values_of_exponentials()
    ensures normal { (base : List ℕ) → Coprime base → (m : ℕ) (p : Terms Fraction)
        → Arity (width (length base) m) p → IsNormal base (with_normal_keys (length base) p) }
    ensures the_same { (base : List ℕ) → Coprime base → (m : ℕ) (p : Terms Fraction)
        → Arity (width (length base) m) p → (n : ℕ) (s : List Fraction)
        → value_at ℚ (with_normal_keys (length base) p) (point base n s)
        ≡ value_at ℚ p (point base n s) }
    ensures next { (base : List ℕ) → Coprime base
        → (m : ℕ) (p : Terms Fraction) (n : ℕ) (s : List Fraction) → length s ≡ m
        → value_at ℚ (compose ℚ (width (length base) m) p (next_images base m))
        (point base n s) ≡ value_at ℚ p (point base (suc n) s) }
    ensures back { (base : List ℕ) → Coprime base → (m : ℕ) (p : Terms Fraction)
        → Arity (width (length base) m) p → (n : ℕ) (s : List Fraction)
        → value_at ℚ (inverse_form_terms (length base) p) (point base n s) ≡ value_at ℚ p
        (back_point base n s) }
    ensures at_zero { (base : List ℕ) → Coprime base
        → (m : ℕ) (p : Terms Fraction) (s : List Fraction) → length s ≡ m
        → value_at ℚ (compose ℚ m p (zero_images (length base) m)) s ≡ value_at ℚ p
        (point base 0 s) }
    ensures before { (base : List ℕ) → Coprime base → (m : ℕ) (p : Terms Fraction)
        → Arity (width (length base) m) p → (n : ℕ) (s : List Fraction) → length s ≡ m
        → value_at ℚ (one_before base m p) (point base (suc n) s) ≡ value_at ℚ p
        (point base n s) }
    ensures at_iteration { (base : List ℕ) → Coprime base
        → (m : ℕ) (p : Terms Fraction) (n : ℕ) (s : List Fraction) → length s ≡ m
        → value_at ℚ (at_iteration base m n p) s ≡ value_at ℚ p (point base n s) }
{}

/// The terms that the table gives solve the recurrence of one term, where the two numbers are different and where they are the same.
pub fn tables_solve_recurrences()
    ensures other { (base : List ℕ) → Coprime base
        → (m a : ℕ) (negative own_negative : Bool) (inhomogeneity own : List ℤ)
        → length inhomogeneity ≡ length base → length own ≡ length base
        → negate_if negative (number base inhomogeneity) ≢ negate_if own_negative (number base own)
        → (q : ℕ → Fraction)
        → IsOther ℚ_field (negate_if negative (number base inhomogeneity))
        (negate_if own_negative (number base own)) a q
        → IsSolution base m a (negate_if negative (number base inhomogeneity))
        (negate_if own_negative (number base own))
        (other_terms m (power_key negative inhomogeneity) (power_key own_negative own) a q) }
    ensures equal { (base : List ℕ) → Coprime base → (m a : ℕ) (negative : Bool) (own : List ℤ)
        → length own ≡ length base → negate_if negative (number base own) ≢ ℚ.zero
        → (q : ℕ → Fraction)
        → IsEqual ℚ_field (negate_if negative (number base own)) a q
        → IsSolution base m a (negate_if negative (number base own))
        (negate_if negative (number base own)) (equal_terms m (power_key negative own) a q) }
{}

/// The eigenvalues of a class are the values of any forms that split its matrix.
pub fn eigenvalues_are_the_values_of_forms()
    ensures value { (images : List (Terms Fraction)) (g : List ℕ) (forms : List (List Fraction))
        (values : List Fraction) → IsClass images g
        → AreForms (length g) (class_matrix images g) forms values → (c : Fraction) → In c values
        → IsEigenvalue images c }
    ensures eigenvalue { (images : List (Terms Fraction)) (c : Fraction)
        → (is : IsEigenvalue images c) → (forms : List (List Fraction)) (values : List Fraction)
        → AreForms (length is.class) (class_matrix images is.class) forms values → In c values }
{}

/// The inverse of a matrix of forms stands behind the identity in the echelon list of the forms beside the identity.
pub fn echelon_lists_have_the_inverse()
    ensures { (n : ℕ) (rows forms echelon : List (List Fraction)) (values : List Fraction)
        → AreForms n rows forms values → IsEchelonOf (n + n) (beside n 0 forms) echelon
        → IsInverse n forms (map (drop n) echelon) }
{}

/// From what is known of earlier variables and of the forms before it from some number of iterations on, a polynomial with the recurrence of a form is that form: from there on, if it is at the first of these numbers, or if its value isn't 0 and it is at one of them; where its value is 0, one iteration later.
pub fn forms_come_one_after_another()
    ensures inhomogeneity { (base : List ℕ) (images : List (Terms Fraction)) (since : ℕ)
        → IsMap (length images) images → (earlier : List ℕ) (k : ℕ) (g : List ℕ)
        → IsNext (uses images) (length images) earlier k
        → IsClassOf (uses images) (length images) k g → (ps : List (Terms Fraction))
        → AreAfterIterations base images since earlier ps
        → (w : List Fraction) (p : Terms Fraction) (w' : ℕ)
        → ((y : List Fraction) → value_at ℚ p y ≡ sum_of_products ℚ w (rests_at images g y))
        → (n : ℕ) (s : List Fraction) → length s ≡ length images → since ≤ n
        → value_at ℚ (compose ℚ w' p ps) (point base n s) ≡ sum_of_products ℚ w
        (rests_at images g (iterations images n s)) }
    ensures first { (base : List ℕ) (images : List (Terms Fraction)) (since : ℕ)
        → IsMap (length images) images
        → ((vs : List ℕ) → IsNonlinearCycle (uses images) (strongly images) vs → ⊥) → (g : List ℕ)
        → IsClass images g → (before : Done)
        → Each (λ t. IsFormAfterIterations base images since g t.0 t.1) before → (w : List Fraction)
        → length w ≡ length g → (l : Fraction) (by : List Fraction)
        → IsSplit images g before w l by → (q : Terms Fraction)
        → ((n : ℕ) (s : List Fraction) → length s ≡ length images → since ≤ n
        → value_at ℚ q (point base n s) ≡ ℚ.add
        (sum_of_products ℚ w (rests_at images g (iterations images n s)))
        (sum_of_products ℚ by (values_done before (point base n s))))
        → (start : List Fraction → Fraction) (y : Terms Fraction)
        → HasRecurrence base (length images) l q start y
        → HasValueAfter base images g w since y → IsFormAfterIterations base images since g w y }
    ensures later { (base : List ℕ) (images : List (Terms Fraction)) (since : ℕ)
        → IsMap (length images) images
        → ((vs : List ℕ) → IsNonlinearCycle (uses images) (strongly images) vs → ⊥) → (g : List ℕ)
        → IsClass images g → (before : Done)
        → Each (λ t. IsFormAfterIterations base images since g t.0 t.1) before → (w : List Fraction)
        → length w ≡ length g → (l : Fraction) (by : List Fraction)
        → IsSplit images g before w l by → (q : Terms Fraction)
        → ((n : ℕ) (s : List Fraction) → length s ≡ length images → since ≤ n
        → value_at ℚ q (point base n s) ≡ ℚ.add
        (sum_of_products ℚ w (rests_at images g (iterations images n s)))
        (sum_of_products ℚ by (values_done before (point base n s))))
        → l ≢ ℚ.zero → (start : List Fraction → Fraction) (y : Terms Fraction)
        → HasRecurrence base (length images) l q start y → (d : ℕ)
        → HasValueAfter base images g w (since + d) y
        → IsFormAfterIterations base images since g w y }
    ensures zero { (base : List ℕ) (images : List (Terms Fraction)) (since : ℕ)
        → IsMap (length images) images
        → ((vs : List ℕ) → IsNonlinearCycle (uses images) (strongly images) vs → ⊥) → (g : List ℕ)
        → IsClass images g → (before : Done)
        → Each (λ t. IsFormAfterIterations base images since g t.0 t.1) before → (w : List Fraction)
        → length w ≡ length g → (l : Fraction) (by : List Fraction)
        → IsSplit images g before w l by → (q : Terms Fraction)
        → ((n : ℕ) (s : List Fraction) → length s ≡ length images → since ≤ n
        → value_at ℚ q (point base n s) ≡ ℚ.add
        (sum_of_products ℚ w (rests_at images g (iterations images n s)))
        (sum_of_products ℚ by (values_done before (point base n s))))
        → l ≡ ℚ.zero → (start : List Fraction → Fraction) (y : Terms Fraction)
        → HasRecurrence base (length images) l q start y
        → IsFormAfterIterations base images (suc since) g w y }
    ensures variable { (base : List ℕ) (images : List (Terms Fraction)) (since : ℕ)
        → IsMap (length images) images
        → ((vs : List ℕ) → IsNonlinearCycle (uses images) (strongly images) vs → ⊥) → (g : List ℕ)
        → IsClass images g → (forms : Done)
        → Each (λ t. IsFormAfterIterations base images since g t.0 t.1) forms
        → (a : ℕ) → a < length g → (by : List Fraction)
        → ((i : ℕ) → i < length g
        → (combine (rows_of ℚ_field (length g)) (entries ℚ_field by)
        (rows_done (length g) forms)).0
        i ≡ entries ℚ_field (unit_list (length g) a) i)
        → (p : Terms Fraction)
        → ((n : ℕ) (s : List Fraction) → length s ≡ length images → since ≤ n
        → value_at ℚ p (point base n s) ≡ sum_of_products ℚ by
        (values_done forms (point base n s)))
        → IsAfterIterations base images since (place g a) p }
{}

/// Forms by their places in what a matrix is split into: the row of the inverse tells what a form has of those before it.
pub fn forms_of_a_splitting_are_split()
    ensures { (images : List (Terms Fraction)) (g : List ℕ) (forms back : List (List Fraction))
        (values : List Fraction) → AreForms (length g) (class_matrix images g) forms values
        → IsInverse (length g) forms back
        → (k : ℕ) → k < length g → (done : List (Terms Fraction)) → length done ≡ k
        → (turned by : List Fraction)
        → IsProduct (length g) (row_at forms k) (class_matrix images g) turned
        → IsProduct (length g) turned back by
        → IsSplit images g (with_polynomials (take k forms) done) (row_at forms k)
        (entries ℚ_field values k) by }
{}

/// What is known class by class: before the first class nothing, what is known from some number of iterations on is known from later on, and after the last it is the closed form from there on.
pub fn classes_end_with_the_closed_form()
    ensures none { (base : List ℕ) (images : List (Terms Fraction)) (since : ℕ)
        (ps : List (Terms Fraction))
        → length ps ≡ length images → AreAfterIterations base images since [] ps }
    ensures later { (base : List ℕ) (images : List (Terms Fraction)) (since d : ℕ) → since ≤ d
        → (vs : List ℕ) (ps : List (Terms Fraction))
        → AreAfterIterations base images since vs ps → AreAfterIterations base images d vs ps }
    ensures all { (base : List ℕ) (images : List (Terms Fraction)) (since : ℕ) (earlier : List ℕ)
        (ps : List (Terms Fraction)) → AreClasses (uses images) (length images) earlier []
        → AreAfterIterations base images since earlier ps
        → AllArity (width (length base) (length images)) ps
        → IsClosedFormFrom base images since ps }
{}

/// A closed form that is made class by class and form by form holds from as many iterations on as there are forms with the value 0.
pub fn as_many_iterations_as_zeros_suffice()
    ensures known { (base : List ℕ) (images ps : List (Terms Fraction))
        → IsMap (length images) images
        → ((vs : List ℕ) → IsNonlinearCycle (uses images) (strongly images) vs → ⊥)
        → (zeros : ℕ) (vs : List ℕ) → Made base images ps zeros vs
        → AreAfterIterations base images zeros vs ps }
    ensures whole { (base : List ℕ) (images ps : List (Terms Fraction))
        → IsMap (length images) images
        → ((vs : List ℕ) → IsNonlinearCycle (uses images) (strongly images) vs → ⊥)
        → (zeros : ℕ) (vs : List ℕ) → Made base images ps zeros vs
        → AreClasses (uses images) (length images) vs []
        → AllArity (width (length base) (length images)) ps
        → IsClosedFormFrom base images zeros ps }
{}

/// A solvable map, each class of which has forms with values that are 0 or numbers of the base, has a closed form from some number of iterations on; from 0 on, where no value is 0.
pub fn solvable_maps_have_a_closed_form()
    ensures { (base : List ℕ) → Coprime base → (images : List (Terms Fraction))
        → IsMap (length images) images
        → ((vs : List ℕ) → IsNonlinearCycle (uses images) (strongly images) vs → ⊥)
        → (groups : List (List ℕ)) → AreClasses (uses images) (length images) [] groups
        → (splits : (g : List ℕ) → IsClass images g → HasForms base images g)
        → (since : ℕ) × (ps : List (Terms Fraction)) × IsClosedFormFrom base images since ps
        × (((g : List ℕ) (class : IsClass images g) → Each (λ x. x ≢ ℚ.zero)
        (splits g class).values) → since ≡ 0) }
{}

/// A solvable map with a closed form from 0 on has no eigenvalue 0.
pub fn no_eigenvalue_is_zero_where_a_form_begins_at_once()
    ensures { (base : List ℕ) → Coprime base → (images : List (Terms Fraction))
        → IsMap (length images) images
        → ((vs : List ℕ) → IsNonlinearCycle (uses images) (strongly images) vs → ⊥)
        → (ps : List (Terms Fraction)) → IsClosedForm base images ps
        → IsEigenvalue images ℚ.zero → ⊥ }
{}
