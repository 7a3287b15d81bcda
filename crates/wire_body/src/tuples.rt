//! Tuples of up to eight arguments as bodies, and of one or more as the fields of a struct.
ghost use Rattle.std.specs.Prelude.{refl};

use crate::lent::Lent;
use crate::structs::Fields;
use crate::tuple::Tuple;
use wire_argument::Argument;
use wire_codec::{EncodeError, Encoder};
use wire_signature::VariantError;

impl Tuple for () {
    type Pairs = ();

    ghost split = { λ x. tt };

    ghost join = { λ y. tt };

    fn split(self) {}

    fn join(_pairs: ()) {}

    fn check(&self, room: usize) -> Result<(), VariantError> {
        Lent::check(self, room)
    }

    fn encode(&self, encoder: &mut Encoder) -> Result<(), EncodeError> {
        Lent::encode(self, encoder)
    }

    ghost joined = { λ x. refl };
}

impl<A: Argument> Tuple for (A,) {
    type Pairs = (A, ());

    ghost split = { λ x. (x.0, tt) };

    ghost join = { λ y. record { 0 = y.0 } };

    fn split(self) -> (A, ()) {
        let (first,) = self;
        (first, ())
    }

    fn join(pairs: (A, ())) -> (A,) {
        let (first, ()) = pairs;
        (first,)
    }

    fn check(&self, room: usize) -> Result<(), VariantError> {
        (&self.0, ()).check(room)
    }

    fn encode(&self, encoder: &mut Encoder) -> Result<(), EncodeError> {
        (&self.0, ()).encode(encoder)
    }

    ghost joined = { λ x. refl };
}

impl<A: Argument> Fields for (A,) {
    ghost some = { tt };
}

impl<A: Argument, B: Argument> Tuple for (A, B) {
    type Pairs = (A, (B, ()));

    ghost split = { λ x. (x.0, (x.1, tt)) };

    ghost join = { λ y. (y.0, y.1.0) };

    fn split(self) -> (A, (B, ())) {
        let (first, second) = self;
        (first, (second, ()))
    }

    fn join(pairs: (A, (B, ()))) -> (A, B) {
        let (first, (second, ())) = pairs;
        (first, second)
    }

    fn check(&self, room: usize) -> Result<(), VariantError> {
        (&self.0, (&self.1, ())).check(room)
    }

    fn encode(&self, encoder: &mut Encoder) -> Result<(), EncodeError> {
        (&self.0, (&self.1, ())).encode(encoder)
    }

    ghost joined = { λ x. refl };
}

impl<A: Argument, B: Argument> Fields for (A, B) {
    ghost some = { tt };
}

impl<A: Argument, B: Argument, C: Argument> Tuple for (A, B, C) {
    type Pairs = (A, (B, (C, ())));

    ghost split = { λ x. (x.0, (x.1, (x.2, tt))) };

    ghost join = { λ y. (y.0, y.1.0, y.1.1.0) };

    fn split(self) -> (A, (B, (C, ()))) {
        let (first, second, third) = self;
        (first, (second, (third, ())))
    }

    fn join(pairs: (A, (B, (C, ())))) -> (A, B, C) {
        let (first, (second, (third, ()))) = pairs;
        (first, second, third)
    }

    fn check(&self, room: usize) -> Result<(), VariantError> {
        (&self.0, (&self.1, (&self.2, ()))).check(room)
    }

    fn encode(&self, encoder: &mut Encoder) -> Result<(), EncodeError> {
        (&self.0, (&self.1, (&self.2, ()))).encode(encoder)
    }

    ghost joined = { λ x. refl };
}

impl<A: Argument, B: Argument, C: Argument> Fields for (A, B, C) {
    ghost some = { tt };
}

impl<A: Argument, B: Argument, C: Argument, D: Argument> Tuple for (A, B, C, D) {
    type Pairs = (A, (B, (C, (D, ()))));

    ghost split = { λ x. (x.0, (x.1, (x.2, (x.3, tt)))) };

    ghost join = { λ y. (y.0, y.1.0, y.1.1.0, y.1.1.1.0) };

    fn split(self) -> (A, (B, (C, (D, ())))) {
        let (first, second, third, fourth) = self;
        (first, (second, (third, (fourth, ()))))
    }

    fn join(pairs: (A, (B, (C, (D, ()))))) -> (A, B, C, D) {
        let (first, (second, (third, (fourth, ())))) = pairs;
        (first, second, third, fourth)
    }

    fn check(&self, room: usize) -> Result<(), VariantError> {
        (&self.0, (&self.1, (&self.2, (&self.3, ())))).check(room)
    }

    fn encode(&self, encoder: &mut Encoder) -> Result<(), EncodeError> {
        (&self.0, (&self.1, (&self.2, (&self.3, ())))).encode(encoder)
    }

    ghost joined = { λ x. refl };
}

impl<A: Argument, B: Argument, C: Argument, D: Argument> Fields for (A, B, C, D) {
    ghost some = { tt };
}

impl<A: Argument, B: Argument, C: Argument, D: Argument, E: Argument> Tuple for (A, B, C, D, E) {
    type Pairs = (A, (B, (C, (D, (E, ())))));

    ghost split = { λ x. (x.0, (x.1, (x.2, (x.3, (x.4, tt))))) };

    ghost join = { λ y. (y.0, y.1.0, y.1.1.0, y.1.1.1.0, y.1.1.1.1.0) };

    fn split(self) -> (A, (B, (C, (D, (E, ()))))) {
        let (first, second, third, fourth, fifth) = self;
        (first, (second, (third, (fourth, (fifth, ())))))
    }

    fn join(pairs: (A, (B, (C, (D, (E, ())))))) -> (A, B, C, D, E) {
        let (first, (second, (third, (fourth, (fifth, ()))))) = pairs;
        (first, second, third, fourth, fifth)
    }

    fn check(&self, room: usize) -> Result<(), VariantError> {
        (&self.0, (&self.1, (&self.2, (&self.3, (&self.4, ()))))).check(room)
    }

    fn encode(&self, encoder: &mut Encoder) -> Result<(), EncodeError> {
        (&self.0, (&self.1, (&self.2, (&self.3, (&self.4, ()))))).encode(encoder)
    }

    ghost joined = { λ x. refl };
}

impl<A: Argument, B: Argument, C: Argument, D: Argument, E: Argument> Fields for (A, B, C, D, E) {
    ghost some = { tt };
}

impl<A: Argument, B: Argument, C: Argument, D: Argument, E: Argument, F: Argument> Tuple
    for (A, B, C, D, E, F) {
    type Pairs = (A, (B, (C, (D, (E, (F, ()))))));

    ghost split = { λ x. (x.0, (x.1, (x.2, (x.3, (x.4, (x.5, tt)))))) };

    ghost join = { λ y. (y.0, y.1.0, y.1.1.0, y.1.1.1.0, y.1.1.1.1.0, y.1.1.1.1.1.0) };

    fn split(self) -> (A, (B, (C, (D, (E, (F, ())))))) {
        let (first, second, third, fourth, fifth, sixth) = self;
        (first, (second, (third, (fourth, (fifth, (sixth, ()))))))
    }

    fn join(pairs: (A, (B, (C, (D, (E, (F, ()))))))) -> (A, B, C, D, E, F) {
        let (first, (second, (third, (fourth, (fifth, (sixth, ())))))) = pairs;
        (first, second, third, fourth, fifth, sixth)
    }

    fn check(&self, room: usize) -> Result<(), VariantError> {
        (
            &self.0,
            (&self.1, (&self.2, (&self.3, (&self.4, (&self.5, ()))))),
        )
            .check(room)
    }

    fn encode(&self, encoder: &mut Encoder) -> Result<(), EncodeError> {
        (
            &self.0,
            (&self.1, (&self.2, (&self.3, (&self.4, (&self.5, ()))))),
        )
            .encode(encoder)
    }

    ghost joined = { λ x. refl };
}

impl<A: Argument, B: Argument, C: Argument, D: Argument, E: Argument, F: Argument> Fields
    for (A, B, C, D, E, F) {
    ghost some = { tt };
}

impl<
    A: Argument,
    B: Argument,
    C: Argument,
    D: Argument,
    E: Argument,
    F: Argument,
    G: Argument,
> Tuple for (A, B, C, D, E, F, G) {
    type Pairs = (A, (B, (C, (D, (E, (F, (G, ())))))));

    ghost split = { λ x. (x.0, (x.1, (x.2, (x.3, (x.4, (x.5, (x.6, tt))))))) };

    ghost join = { λ y. (y.0, y.1.0, y.1.1.0, y.1.1.1.0, y.1.1.1.1.0, y.1.1.1.1.1.0, y.1.1.1.1.1.1.0) };

    fn split(self) -> (A, (B, (C, (D, (E, (F, (G, ()))))))) {
        let (first, second, third, fourth, fifth, sixth, seventh) = self;
        (
            first,
            (second, (third, (fourth, (fifth, (sixth, (seventh, ())))))),
        )
    }

    fn join(pairs: (A, (B, (C, (D, (E, (F, (G, ())))))))) -> (A, B, C, D, E, F, G) {
        let (first, (second, (third, (fourth, (fifth, (sixth, (seventh, ()))))))) = pairs;
        (first, second, third, fourth, fifth, sixth, seventh)
    }

    fn check(&self, room: usize) -> Result<(), VariantError> {
        (
            &self.0,
            (
                &self.1,
                (&self.2, (&self.3, (&self.4, (&self.5, (&self.6, ()))))),
            ),
        )
            .check(room)
    }

    fn encode(&self, encoder: &mut Encoder) -> Result<(), EncodeError> {
        (
            &self.0,
            (
                &self.1,
                (&self.2, (&self.3, (&self.4, (&self.5, (&self.6, ()))))),
            ),
        )
            .encode(encoder)
    }

    ghost joined = { λ x. refl };
}

impl<
    A: Argument,
    B: Argument,
    C: Argument,
    D: Argument,
    E: Argument,
    F: Argument,
    G: Argument,
> Fields for (A, B, C, D, E, F, G) {
    ghost some = { tt };
}

impl<
    A: Argument,
    B: Argument,
    C: Argument,
    D: Argument,
    E: Argument,
    F: Argument,
    G: Argument,
    H: Argument,
> Tuple for (A, B, C, D, E, F, G, H) {
    type Pairs = (A, (B, (C, (D, (E, (F, (G, (H, ()))))))));

    ghost split = { λ x. (x.0, (x.1, (x.2, (x.3, (x.4, (x.5, (x.6, (x.7, tt)))))))) };

    ghost join = { λ y. (y.0, y.1.0, y.1.1.0, y.1.1.1.0, y.1.1.1.1.0, y.1.1.1.1.1.0, y.1.1.1.1.1.1.0, y.1.1.1.1.1.1.1.0) };

    fn split(self) -> (A, (B, (C, (D, (E, (F, (G, (H, ())))))))) {
        let (first, second, third, fourth, fifth, sixth, seventh, eighth) = self;
        (
            first,
            (
                second,
                (third, (fourth, (fifth, (sixth, (seventh, (eighth, ())))))),
            ),
        )
    }

    fn join(pairs: (A, (B, (C, (D, (E, (F, (G, (H, ()))))))))) -> (A, B, C, D, E, F, G, H) {
        let (first, (second, (third, (fourth, (fifth, (sixth, (seventh, (eighth, ())))))))) = pairs;
        (first, second, third, fourth, fifth, sixth, seventh, eighth)
    }

    fn check(&self, room: usize) -> Result<(), VariantError> {
        (
            &self.0,
            (
                &self.1,
                (
                    &self.2,
                    (&self.3, (&self.4, (&self.5, (&self.6, (&self.7, ()))))),
                ),
            ),
        )
            .check(room)
    }

    fn encode(&self, encoder: &mut Encoder) -> Result<(), EncodeError> {
        (
            &self.0,
            (
                &self.1,
                (
                    &self.2,
                    (&self.3, (&self.4, (&self.5, (&self.6, (&self.7, ()))))),
                ),
            ),
        )
            .encode(encoder)
    }

    ghost joined = { λ x. refl };
}

impl<
    A: Argument,
    B: Argument,
    C: Argument,
    D: Argument,
    E: Argument,
    F: Argument,
    G: Argument,
    H: Argument,
> Fields for (A, B, C, D, E, F, G, H) {
    ghost some = { tt };
}
