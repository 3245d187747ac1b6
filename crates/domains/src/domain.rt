// The interface of a domain: a ring in which the solver calculates, the words of its elements, and its legal moduli.
ghost use Rattle.std.specs.Prelude.{◌≡◌, true, MatchOption};
ghost use Rattle.domains.specs.Answers.{Decides};
ghost use Rattle.domains.specs.Meaning.{SquarefreeModulus, legal_word};
ghost use Rattle.domains.specs.View.{View, Lawful, IsDifference, IsModulus, IsModulusQuotient, IsNormalMultiple, IsProduct, IsQuotient, IsResidue, IsSum, OwnPair, OwnZero, shown_modulus, shown_word};

pub trait Domain {
    // A value stands for the element of its word, and so does a modulus. Every modulus is legal and squarefree.
    type Value: Copy;

    type Modulus: Copy;

    // What the domain means, the words of its values and moduli, and which of them are its own.
    ghost view: { Self → View Self.Value Self.Modulus };

    // The residue of a word.
    fn residue(&self, w: u64, m: Self::Modulus) -> Self::Value
        ensures own { (view self.now).own result ≡ true }
        ensures value { IsResidue (view self.now) w m result };

    // The residue of a sum.
    fn add(&self, a: Self::Value, b: Self::Value, m: Self::Modulus) -> Self::Value
        ensures own { (view self.now).own result ≡ true }
        ensures value { IsSum (view self.now) a b m result };

    // The residue of a difference.
    fn subtract(&self, a: Self::Value, b: Self::Value, m: Self::Modulus) -> Self::Value
        ensures own { (view self.now).own result ≡ true }
        ensures value { IsDifference (view self.now) a b m result };

    // The residue of a product.
    fn multiply(&self, a: Self::Value, b: Self::Value, m: Self::Modulus) -> Self::Value
        ensures own { (view self.now).own result ≡ true }
        ensures value { IsProduct (view self.now) a b m result };

    // The word of a value; 0 for one that is not the domain's own.
    fn word_of(&self, a: Self::Value) -> u64
        ensures { result ≡ shown_word (view self.now) a };

    // The word of a modulus; 0 for one that is not the domain's own.
    fn word_of_modulus(&self, m: Self::Modulus) -> u64
        ensures { result ≡ shown_modulus (view self.now) m };

    // Whether a value is 0; no for one that is not the domain's own.
    fn is_zero(&self, a: Self::Value) -> bool
        ensures { Decides result (OwnZero (view self.now) a) };

    // Whether a word is a legal modulus.
    fn is_legal(&self, w: u64) -> bool
        ensures { result ≡ legal_word (view self.now).meaning w };

    // Whether a word is a legal modulus and squarefree.
    fn is_squarefree(&self, w: u64) -> bool
        ensures { Decides result (SquarefreeModulus (view self.now).meaning w) }
    {
        self.modulus(w).is_some()
    }

    // The modulus of a word that is a legal modulus and squarefree, else none.
    fn modulus(&self, w: u64) -> Option<Self::Modulus>
        ensures { MatchOption result (¬ SquarefreeModulus (view self.now).meaning w) (IsModulus (view self.now) w) };

    // Quotient and remainder of a value by a value; by 0 they are 0 and the dividend.
    fn divide(&self, a: Self::Value, b: Self::Value) -> (Self::Value, Self::Value)
        ensures own { OwnPair (view self.now) result.0 result.1 }
        ensures parts { IsQuotient (view self.now) a b result.0 result.1 };

    // Quotient and remainder of a modulus by a value, for a modulus has a type of its own; by 0 they are 0 and the dividend.
    fn divide_modulus(&self, m: Self::Modulus, b: Self::Value) -> (Self::Value, Self::Value)
        ensures own { OwnPair (view self.now) result.0 result.1 }
        ensures parts { IsModulusQuotient (view self.now) m b result.0 result.1 };

    // The normal multiple of a value and the unit used; for 0 they are 0 and 1.
    fn normalize(&self, a: Self::Value) -> (Self::Value, Self::Value)
        ensures own { OwnPair (view self.now) result.0 result.1 }
        ensures parts { IsNormalMultiple (view self.now) a result.0 result.1 };

    // The domain keeps the laws.
    ghost lawful: { (d : Self) → Lawful (view d) };

    // A value has one word in all domains that share its type, and so has a modulus.
    ghost one_word: { (d e : Self) (a : Self.Value) → (view d).word a ≡ (view e).word a };

    ghost one_modulus_word: { (d e : Self) (m : Self.Modulus) → (view d).modulus_word m ≡ (view e).modulus_word m };
}
