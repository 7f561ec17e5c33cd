//! How written sources are laid out. That they are the same sources is a contract's.
use parser::parse;
use source_text::write;
use std::alloc::Global;
use test_helpers::{Checked, check};

// Sources, and what is written of them after the lines of the head.
const SOURCES: [(&[u8], &[u8]); 5] = [
    (b"element Vertex end element Edge end ", b""),
    (
        b"element Vertex end element Edge end schedule:",
        b"schedule : ",
    ),
    (
        b"element Vertex end element Edge end const x:int=-007;",
        b"const x : int = - 7 ;\n",
    ),
    (
        b"element Vertex end element Edge end func f(v:Vertex) -> o:bool o=(not true); end",
        b"func f ( v : Vertex ) -> o : bool o = ( not true ) ;\nend\n",
    ),
    (
        b"element Vertex end element Edge end \
          func main() #s1# if a[0]==1 else x min= 2; end end schedule: program->fuseFields(\"a\",\"b\");",
        b"func main ( ) #s1# if a [ 0 ] == 1 else x min= 2 ;\nend\nend\nschedule : program -> fuseFields ( \"a\" , \"b\" ) ;\n",
    ),
];

// A breadth-first search, and what is written of it after the lines of the head.
const SEARCH: &[u8] = b"element Vertex end element Edge end \
    const edges : edgeset{Edge}(Vertex, Vertex) = load(argv[1]); const parent : vector{Vertex}(int) = -1; \
    func unseen(v : Vertex) -> output : bool output = parent[v] == -1; end \
    func visit(src : Vertex, dst : Vertex) parent[dst] max= src; end \
    func main() var frontier : vertexset{Vertex} = new vertexset{Vertex}(0); \
    frontier.addVertex(0); parent[0] = 0; while frontier.getVertexSetSize() != 0 \
    #s1# frontier = edges.from(frontier).to(unseen).applyModified(visit, parent); end end";

const WRITTEN_SEARCH: &[u8] =
    b"const edges : edgeset { Edge } ( Vertex , Vertex ) = load ( argv [ 1 ] ) ;\n\
    const parent : vector { Vertex } ( int ) = - 1 ;\n\
    func unseen ( v : Vertex ) -> output : bool output = parent [ v ] == - 1 ;\nend\n\
    func visit ( src : Vertex , dst : Vertex ) parent [ dst ] max= src ;\nend\n\
    func main ( ) var frontier : vertexset { Vertex } = new vertexset { Vertex } ( 0 ) ;\n\
    frontier . addVertex ( 0 ) ;\nparent [ 0 ] = 0 ;\nwhile frontier . getVertexSetSize ( ) != 0 \
    #s1# frontier = edges . from ( frontier ) . to ( unseen ) . applyModified ( visit , parent ) ;\nend\nend\n";

const HEAD: &[u8] = b"element Vertex end\nelement Edge end\n";

// What is written of a text.
fn written(alloc: Global, text: &[u8]) -> Result<Vec<u8>, &'static str> {
    let source = parse(alloc, text).map_err(|_| "the text is not parsed")?;
    write(alloc, &source).map_err(|_| "the source is not written")
}

// Checks that this is written of a text, after the lines of the head.
fn check_written(alloc: Global, text: &[u8], want: &[u8]) -> Checked {
    let lines = written(alloc, text)?;
    check(lines.strip_prefix(HEAD) == Some(want), "the lines")
}

// Checks that a text is read back from what is written of it, so that the same is written of both.
fn check_read_back(alloc: Global, text: &[u8]) -> Checked {
    let first = written(alloc, text)?;
    let second = written(alloc, &first)?;
    check(second == first, "what is written of the lines")
}

#[test]
fn a_search_is_written_and_read_back(rt: HostRuntime) {
    assert_eq!(rt; check_written(rt.alloc(), SEARCH, WRITTEN_SEARCH), Ok(()));
    assert_eq!(rt; check_read_back(rt.alloc(), SEARCH), Ok(()));
    for (text, _) in SOURCES {
        assert_eq!(rt; check_read_back(rt.alloc(), text), Ok(()), "{text:?}");
    }
}

#[test]
fn statements_stand_on_lines(rt: HostRuntime) {
    for (text, want) in SOURCES {
        assert_eq!(rt; check_written(rt.alloc(), text, want), Ok(()), "{text:?}");
    }
}
