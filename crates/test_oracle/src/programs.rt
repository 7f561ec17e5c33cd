//! Whole programs, each under some schedules.

/// A program under a schedule: its name, its text, and the schedule's text.
pub type Scheduled = (&'static str, &'static str, &'static str);

/// The programs that are run, searches and labels first. The last ones read the weights of edges.
pub const PROGRAMS: [Scheduled; 21] = [
    ("search, push", SEARCH, ""),
    ("search, dense push", SEARCH, DENSE_PUSH),
    ("search, pull", SEARCH, PULL),
    ("search, hybrid", SEARCH, HYBRID),
    ("labels, push", LABELS, ""),
    ("labels, dense push", LABELS, DENSE_PUSH),
    ("labels, pull", LABELS, PULL),
    ("labels, hybrid", LABELS, HYBRID),
    ("counts, apart", COUNTS, ""),
    ("counts, fused", COUNTS, FUSED),
    ("counts, fused and pulled", COUNTS, FUSED_PULL),
    ("counts, fields", COUNTS, FIELDS),
    ("a loop with a fault", FAULT, ""),
    ("a loop with a fault, fused", FAULT, FUSED),
    ("a loop with a fault, fields", FAULT, FIELDS),
    ("shortest ways, push", SHORTEST, ""),
    ("shortest ways, dense push", SHORTEST, DENSE_PUSH),
    ("shortest ways, pull", SHORTEST, PULL),
    ("shortest ways, hybrid", SHORTEST, HYBRID),
    ("weighted sums, fused", SUMS, FUSED),
    ("weighted sums, fused and pulled", SUMS, FUSED_PULL),
];

/// How many of them are searches and labels.
pub const SEARCHES_AND_LABELS: usize = 8;

// Breadth-first search from vertex 0, which tells of each vertex how far it is.
const SEARCH: &str = "element Vertex end\nelement Edge end\n\
    const edges : edgeset{Edge}(Vertex, Vertex) = load(argv[1]);\n\
    const x : vector{Vertex}(int) = -1;\n\
    const parent : vector{Vertex}(int) = -1;\n\
    func unseen(v : Vertex) -> o : bool o = x[v] == -1; end\n\
    func visit(s : Vertex, d : Vertex) x[d] max= x[s] + 1; parent[d] max= s; end\n\
    func main()\n\
    var frontier : vertexset{Vertex} = new vertexset{Vertex}(0);\n\
    frontier.addVertex(0);\n\
    x[0] = 0;\n\
    while frontier.getVertexSetSize() != 0\n\
    #s1# frontier = edges.from(frontier).to(unseen).applyModified(visit, x);\n\
    print frontier.getVertexSetSize();\n\
    end\nend\n";

// The least vertex that reaches each.
const LABELS: &str = "element Vertex end\nelement Edge end\n\
    const edges : edgeset{Edge}(Vertex, Vertex) = load(argv[1]);\n\
    const vertices : vertexset{Vertex} = edges.getVertices();\n\
    const x : vector{Vertex}(int) = 0;\n\
    func first(v : Vertex) x[v] = v; end\n\
    func update(s : Vertex, d : Vertex) x[d] min= x[s]; end\n\
    func main()\n\
    vertices.apply(first);\n\
    var frontier : vertexset{Vertex} = edges.getVertices();\n\
    while frontier.getVertexSetSize() != 0\n\
    #s1# frontier = edges.from(frontier).applyModified(update, x);\n\
    end\nend\n";

// Two functions that are applied one after the other, three times.
const COUNTS: &str = "element Vertex end\nelement Edge end\n\
    const edges : edgeset{Edge}(Vertex, Vertex) = load(argv[1]);\n\
    const vertices : vertexset{Vertex} = edges.getVertices();\n\
    const a : vector{Vertex}(int) = 0;\n\
    const b : vector{Vertex}(int) = 7;\n\
    func low(v : Vertex) -> o : bool o = v % 5 != 3; end\n\
    func count(s : Vertex, d : Vertex) a[d] += s + 1; end\n\
    func least(s : Vertex, d : Vertex) b[d] min= s - 3; end\n\
    func main()\n\
    for i in 0:3\n\
    #s1# edges.from(vertices).to(low).apply(count);\n\
    #s2# edges.from(vertices).to(low).apply(least);\n\
    print i;\n\
    end\n\
    var left : vertexset{Vertex} = vertices.filter(low);\n\
    print left.getVertexSetSize();\n\
    end\n";

// A loop that comes to a vertex that is none where there are fewer than 50.
const FAULT: &str = "element Vertex end\nelement Edge end\n\
    const edges : edgeset{Edge}(Vertex, Vertex) = load(argv[1]);\n\
    const vertices : vertexset{Vertex} = edges.getVertices();\n\
    const a : vector{Vertex}(int) = 0;\n\
    const b : vector{Vertex}(int) = 7;\n\
    func count(s : Vertex, d : Vertex) a[d] += 1; end\n\
    func add(s : Vertex, d : Vertex) b[d] += s; end\n\
    func main()\n\
    for i in 0:10\n\
    #s1# edges.apply(count);\n\
    #s2# edges.apply(add);\n\
    b[i * i / 2] = a[i * 5];\n\
    print b[i * 5] / 2;\n\
    end\nend\n";

// The lengths of the shortest ways from vertex 0, after Bellman and Ford.
const SHORTEST: &str = "element Vertex end\nelement Edge end\n\
    const edges : edgeset{Edge}(Vertex, Vertex, int) = load(argv[1]);\n\
    const x : vector{Vertex}(int) = 1000000;\n\
    func relax(s : Vertex, d : Vertex, length : int) x[d] min= x[s] + length; end\n\
    func main()\n\
    var frontier : vertexset{Vertex} = new vertexset{Vertex}(0);\n\
    frontier.addVertex(0);\n\
    x[0] = 0;\n\
    while frontier.getVertexSetSize() != 0\n\
    #s1# frontier = edges.from(frontier).applyModified(relax, x);\n\
    print frontier.getVertexSetSize();\n\
    end\nend\n";

// Sums of the neighbours' entries by weights, and beside them a function that reads no weight.
const SUMS: &str = "element Vertex end\nelement Edge end\n\
    const edges : edgeset{Edge}(Vertex, Vertex, int) = load(argv[1]);\n\
    const vertices : vertexset{Vertex} = edges.getVertices();\n\
    const a : vector{Vertex}(int) = 3;\n\
    const b : vector{Vertex}(int) = 7;\n\
    func low(v : Vertex) -> o : bool o = v % 5 != 3; end\n\
    func sum(s : Vertex, d : Vertex, part : int) a[d] += s * part; end\n\
    func least(s : Vertex, d : Vertex) b[d] min= s - 3; end\n\
    func main()\n\
    for i in 0:3\n\
    #s1# edges.from(vertices).to(low).apply(sum);\n\
    #s2# edges.from(vertices).to(low).apply(least);\n\
    end\nend\n";

const DENSE_PUSH: &str = "schedule:\n  program->configApplyDirection(\"s1\", \"DensePush\")\
    ->configApplyParallelization(\"s1\", \"static-vertex-parallel\");\n";

const PULL: &str = "schedule:\n  program->configApplyDirection(\"s1\", \"DensePull\")\
    ->configApplyDenseVertexSet(\"s1\", \"bitvector\");\n";

const HYBRID: &str = "schedule:\n  program->configApplyDirection(\"s1\", \"DensePull-SparsePush\")\
    ->configApplyParallelization(\"s1\", \"dynamic-vertex-parallel\");\n";

const FUSED: &str = "schedule:\n  program->fuseApplyFunctions(\"s1\", \"s2\");\n";

const FUSED_PULL: &str = "schedule:\n  program->fuseApplyFunctions(\"s1\", \"s2\")\
    ->configApplyDirection(\"s1\", \"DensePull\")->configApplyDirection(\"s2\", \"DensePull\");\n";

const FIELDS: &str = "schedule:\n  program->fuseFields(\"b\", \"a\");\n";
